// One part of the result into the lent buffer: the horizontals that the working array holds, and their ends into the verticals.
#![tactic(auto)]

ghost use Rattle.std.specs.Prelude.{◌≡◌};
ghost use Rattle.parts.specs.Parted.{LevelsOk, levelled, PartOk, Parted};

use records::Record;

// The horizontals of a part, as records from number n on.
fn put_levels(ws: &[u64], vx: &[u32], n: usize, out: &mut [i32])
    requires { LevelsOk ws.now vx.now n }
    ensures { out.new ≡ levelled vx.now ws.now n out.old }
{
    for (i, w) in ws.iter().enumerate() {
        let level = Record {
            kind: 0,
            place: horizontal::height(*w),
            from: vx[horizontal::rank_from(*w)],
            to: vx[horizontal::rank_to(*w)],
        };
        records::put(out, n + i, level);
    }
}

// A part of h horizontals: their records from number n on, and their ends into the verticals, which are lent the buffer from just after the horizontals.
pub fn put(ws: &[u64], n: usize, h: usize, vx: &[u32], cs: &mut [u32], out: &mut [i32])
    requires { PartOk ws.now n h vx.now cs.old out.old }
    ensures { Parted ws.now n h vx.now cs.old cs.new out.old out.new }
{
    put_levels(ws, vx, n, out);
    let start = 4 * h;
    verticals::place(ws, vx, cs, &mut out[start..]);
}
