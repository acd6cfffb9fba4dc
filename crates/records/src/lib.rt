// Records in a lent buffer: four numbers each.
#![tactic(auto)]

ghost use Rattle.std.specs.Prelude.{◌≡◌, ◌≤◌};
ghost use Rattle.meaning.specs.Numbers.{limit, step};
ghost use Rattle.meaning.specs.Records.{rec};
ghost use Rattle.records.specs.Put.{put_at, RecordOk};

use scanline::Scanline;

// The coordinate that stands u steps above the least one.
pub fn coordinate(u: u32) -> i32
    requires { u ≤ 2147483648 }
    ensures { result ≡ step limit u }
{
    (i64::from(u) - i64::from(Scanline::LIMIT)) as i32
}

// A record in steps: its place and its ends are counted from the least coordinate.
// The kind is no enum. What may not change is what `put` takes: `RecordOk` is met by every u32 that is 0 or 1, and `parts::put_levels` hands 0.
#[derive(Clone, Copy)]
pub struct Record {
    pub kind: u32,
    pub place: u32,
    pub from: u32,
    pub to: u32,
}

// Record number n, if there is room for it: its four numbers.
// A rule of the project: there is no heap, so the buffer is the caller's, here and in `verticals` and `parts`, and the number n says where the record goes.
pub fn put(out: &mut [i32], n: usize, given: Record)
    requires { RecordOk given.kind given.place given.from given.to }
    ensures { out.new ≡ put_at out.old n (rec given.kind given.place given.from given.to) }
{
    if n < out.len() / 4 {
        let at = n * 4;
        out[at] = given.kind as i32;
        out[at + 1] = coordinate(given.place);
        out[at + 2] = coordinate(given.from);
        out[at + 3] = coordinate(given.to);
    }
}
