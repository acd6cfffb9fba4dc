// Reading a mask file.
#![tactic(auto)]

ghost use Rattle.std.specs.Prelude.{◌≡◌, ◌+◌, ◌≤◌, ◌<◌, ◌++◌, length, drop};
ghost use Rattle.meaning.specs.MaskFile.{spelt, most, five};
ghost use Rattle.meaning.specs.Faults.{Read};
ghost use Rattle.answers.specs.Told.{told};
ghost use Rattle.ring_laws.specs.Groups.{front};
ghost use Rattle.rings.specs.State.{greatest, Sane};
ghost use Rattle.maskfile.specs.Due.{moved, value_of, minus_zero, due_in_file, lifted_of};
ghost use Rattle.maskfile.specs.Outcome.{RingsOutcome, FileOutcome};

use answers::Refusal;
use numbers::Number;
use rings::{Due, State};

// The most bytes of a file.
const LONGEST: usize = 49152;

// Minus zero, as it would be stored.
const MINUS_ZERO: u64 = 1;

// The coordinate that lies a stored difference n from p, or 0, which is out of range, where it would lie below that.
fn moved(p: u64, n: u64) -> u64
    requires { (p ≤ greatest) × (n < most five) }
    ensures { result ≡ moved p n }
{
    let d = n / 2;
    if n % 2 == 0 {
        return p + d;
    }
    p.saturating_sub(d)
}

// The due number that is stored as n.
#[tactic(auto, unfolding(crate::specs::Due::value_of))]
fn value_of(s: State, n: u64) -> u64
    requires { (Sane s) × (n < most five) }
    ensures { result ≡ value_of s n }
{
    s.before().map_or(n, |p| moved(p, n))
}

// Is the stored number n, which is due, minus zero?
fn minus_zero(due: Due, n: u64) -> bool
    ensures { result ≡ minus_zero due n }
{
    n == MINUS_ZERO && rings::is_coordinate(due)
}

// The due number at `at`.
fn due_at(file: &[u8], at: usize, s: State) -> Result<Number, Refusal>
    requires { Sane s }
    ensures { result ≡ due_in_file (length file.now) s at (front five (drop at file.now)) }
{
    // A rule of the project: the specification names this form, a refusal handed straight on.
    let number = numbers::number_at(file, at, numbers::GROUPS);
    let Ok(stored) = number else {
        return number;
    };
    if minus_zero(s.due, stored.value) {
        return Err(Refusal::BadNumber(at));
    }
    rings::judged(s, value_of(s, stored.value), at, stored.next)
}

// The due number v, 2^31 above itself.
fn lifted(due: Due, v: u64) -> u64
    requires { v < 4294967296 }
    ensures { result ≡ lifted_of due v }
{
    if rings::is_coordinate(due) {
        return v;
    }
    v + rings::HALF
}

// Reads the rings, which begin at `from`, and writes their numbers as far as there is room: the value is how many they are.
//
// No plainer as a walk of `ringwalk`, or as a `for`: there a number stands at each place, and here it has one to five bytes, so that the next place is what the reader answers.
fn rings_from(file: &[u8], out: &mut [i32], from: usize) -> Result<Number, Refusal>
    requires { (from ≡ length (spelt five 1)) × ((file.now ≡ spelt five 1 ++ drop from file.now) × (from ≤ length file.now)) }
    ensures { RingsOutcome file.now out.old result out.new }
{
    let mut s = rings::begin();
    let mut at = from;
    let mut n: usize = 0;
    while at < file.len() {
        // A rule of the project: the specification names this form, a refusal handed straight on.
        let number = due_at(file, at, s);
        let Ok(due) = number else {
            return number;
        };
        rings::put(out, n, lifted(s.due, due.value));
        n += 1;
        s = rings::after(s, due.value);
        at = due.next;
    }
    if rings::may_end(s.due) {
        return Ok(Number {
            value: n as u64,
            next: at,
        });
    }
    Err(Refusal::EndsInside(file.len()))
}

// Reads a file, and writes the numbers of its list as far as there is room.
fn list_from(file: &[u8], out: &mut [i32]) -> Result<Number, Refusal>
    ensures { FileOutcome file.now out.old result out.new }
{
    // A rule of the project: the specification names this form, a refusal handed straight on.
    let edition = numbers::number_at(file, 0, numbers::GROUPS);
    let Ok(number) = edition else {
        return edition;
    };
    if number.value == numbers::EDITION {
        return rings_from(file, out, number.next);
    }
    Err(Refusal::OtherEdition)
}

// The ring list of a mask file: how many numbers were written, or the refusal.
pub fn read(file: &[u8], rings: &mut [i32]) -> Result<u64, Refusal>
    ensures { Read file.now rings.old (told result, rings.new) }
{
    if LONGEST < file.len() {
        return Err(Refusal::FileTooLong);
    }
    // No plainer: one function for these three lines and those of `ringwalk::make` would take a closure, and its clause would have to tell what each of two calls of it answers and
    // leaves in a buffer.
    numbers::settled(list_from(file, &mut []), rings.len())?;
    let written = list_from(file, rings)?;
    Ok(written.value)
}
