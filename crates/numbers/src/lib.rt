// The number code of a mask file: groups of seven bits, least group first.
#![tactic(auto)]

ghost use Rattle.std.specs.Prelude.{◌≡◌, ℕ, ◌+◌, ◌≤◌, ◌<◌, length, drop, set};
ghost use Rattle.std.proofs.lemmas.List.Edits.{sets};
ghost use Rattle.meaning.specs.Answers.{room_too_short};
ghost use Rattle.meaning.specs.MaskFile.{spelt, most};
ghost use Rattle.answers.specs.declared.Refusal.TheVariants.{RoomTooShort};
ghost use Rattle.ring_laws.specs.Groups.{front};
ghost use Rattle.numbers.specs.Reading.{settled_of, reading};

use answers::{Answer, Refusal};

// At most five groups make a number.
pub const GROUPS: u64 = 5;

// The number that a mask file begins with.
pub const EDITION: u64 = 1;

// What every reader answers, where it does not refuse: a value with the place after it.
#[derive(Clone, Copy, Debug, PartialEq, Eq)]
pub struct Number {
    pub value: u64,
    pub next: usize,
}

// A type of refusals, one of which says that the room is too short, and what is needed.
pub trait Short {
    ghost short: { ℕ → Self };

    // That refusal.
    fn short(needed: u64) -> Self
        ensures { result ≡ short needed };
}

impl Short for Refusal {
    ghost short = { RoomTooShort };

    fn short(needed: u64) -> Refusal {
        Refusal::RoomTooShort(needed)
    }
}

impl Short for Answer {
    ghost short = { λ needed. record { number = (room_too_short needed).number; value = (room_too_short needed).value } };

    fn short(needed: u64) -> Answer {
        Answer {
            number: 18,
            value: needed,
        }
    }
}

// What a call may go on with, whose result has this room: a refusal as it is, 18 with what is needed where the room is too short, else what was judged.
//
// What may not change: it hands on any refusal, not those of the table alone, and a narrower type would ask more of its callers.
#[tactic(auto, unfolding(crate::specs::Reading::settled_of))]
pub fn settled<F: Short>(judged: Result<Number, F>, room: usize) -> Result<Number, F>
    ensures { result ≡ settled_of F.short judged room }
{
    let read = judged?;
    let needed = read.value;
    if (room as u64) < needed {
        return Err(F::short(needed));
    }
    Ok(read)
}

// What is left at `at` of the number that begins at `start`, in at most `groups` groups.
fn number_from(file: &[u8], start: usize, at: usize, groups: u64) -> Result<Number, Refusal>
    requires { groups ≤ 9 }
    ensures { result ≡ reading (length file.now) start at (front groups (drop at file.now)) }
{
    if groups == 0 {
        return Err(Refusal::BadNumber(start));
    }
    let Some(byte) = file.get(at) else {
        return Err(Refusal::EndsInside(file.len()));
    };
    let b = u64::from(*byte);
    if b < 128 {
        return Ok(Number {
            value: b,
            next: at + 1,
        });
    }
    // A rule of the project: the specification names this form, a refusal handed straight on.
    let rest = number_from(file, start, at + 1, groups - 1);
    let Ok(read) = rest else {
        return rest;
    };
    if read.value == 0 {
        return Err(Refusal::BadNumber(start));
    }
    Ok(Number {
        value: b % 128 + 128 * read.value,
        next: read.next,
    })
}

// The number at `at`, in at most `groups` groups.
pub fn number_at(file: &[u8], at: usize, groups: u64) -> Result<Number, Refusal>
    requires { groups ≤ 9 }
    ensures { result ≡ reading (length file.now) at at (front groups (drop at file.now)) }
{
    number_from(file, at, at, groups)
}

// Writes x at `at`, where there is room for it.
//
// A rule of the project, here and wherever a place stands beside a buffer in the mask files: there is no heap, so the buffer is the caller's, and the place may lie past its end,
// where nothing is written and all the same is counted. It is no `get_mut`, of which a proof knows the length alone.
pub fn put<T: Copy>(out: &mut [T], at: usize, x: T)
    ensures { out.new ≡ set out.old at x }
{
    if at < out.len() {
        out[at] = x;
    }
}

// Writes the groups of v from `at` on, as far as there is room, and returns the place after them.
pub fn put_number(out: &mut [u8], at: usize, v: u64, groups: u64) -> usize
    requires { (1 ≤ groups) × ((v < most groups) × (at + groups ≤ 18446744073709551615)) }
    ensures { (result ≡ at + length (spelt groups v)) × (out.new ≡ sets out.old at (spelt groups v)) }
{
    if v < 128 {
        put(out, at, v as u8);
        return at + 1;
    }
    put(out, at, (v % 128 + 128) as u8);
    put_number(out, at + 1, v / 128, groups - 1)
}
