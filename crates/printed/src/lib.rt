// The text of an answer, written into a buffer that the caller lends. There must be room for it, and how much is enough is said of each.
#![tactic(auto)]

ghost use Rattle.std.specs.Prelude.{◌≡◌, [], ◌∷◌, ◌++◌, ◌+◌, ◌*◌, ◌≤◌, length};
ghost use Rattle.meaning.specs.Printed.{signed_text, first_line, area_line};
ghost use Rattle.answers.specs.Said.{said};
ghost use Rattle.numerals.specs.Stored.{Stored};
ghost use Rattle.printed_laws.specs.Stores.{Front};
ghost use Rattle.printed_laws.specs.Lines.{line_at, number_lines, accepted_text};

use answers::Answer;
use numerals::Writer;

// The first line: the number and the value.
#[tactic(auto, using(printed_laws::specs::Lengths::first_size))]
fn first_line(to: &mut Writer<'_>, given: Answer)
    requires { to.old.at + length (first_line (said given)) ≤ length to.old.out.now }
    ensures { Stored to.old (first_line (said given)) to.new }
{
    to.number(given.number);
    to.byte(b' ');
    to.number(given.value);
    to.byte(b'\n');
}

// A number, and the byte after it: at most 12 bytes.
fn item(to: &mut Writer<'_>, z: i32, after: u8)
    requires { to.old.at + 12 ≤ length to.old.out.now }
    ensures stored { Stored to.old (signed_text z ++ (after ∷ [])) to.new }
    ensures short { to.new.at ≤ to.old.at + 12 }
{
    to.signed(z);
    to.byte(after);
}

// The line of a record, which is four numbers: at most 48 bytes.
fn record_line(to: &mut Writer<'_>, r: &[i32])
    requires { (length r.now ≡ 4) × (to.old.at + 48 ≤ length to.old.out.now) }
    ensures stored { Stored to.old (line_at r.now 0) to.new }
    ensures short { to.new.at ≤ to.old.at + 48 }
{
    item(to, r[0], b' ');
    item(to, r[1], b' ');
    item(to, r[2], b' ');
    item(to, r[3], b'\n');
}

// The lines of the records, four numbers each.
fn record_lines(to: &mut Writer<'_>, records: &[i32])
    requires { to.old.at + 12 * length records.now ≤ length to.old.out.now }
    ensures stored { Stored to.old (number_lines records.now) to.new }
    ensures short { to.new.at ≤ to.old.at + 12 * length records.now }
{
    for r in records.chunks_exact(4) {
        record_line(to, r);
    }
}

// The last line: `area` and the cells.
#[tactic(auto, using(printed_laws::specs::Lengths::area_size))]
fn area_line(to: &mut Writer<'_>, cells: u64)
    requires { to.old.at + length (area_line cells) ≤ length to.old.out.now }
    ensures { Stored to.old (area_line cells) to.new }
{
    to.word(b"area ");
    to.number(cells);
    to.byte(b'\n');
}

// The whole text of an accepted answer, at the front of `out`; answers its length. 2,048 records are 8,192 numbers, for which 98,353 bytes are enough.
pub fn accepted(out: &mut [u8], records: &[i32], value: u64, cells: u64) -> usize
    requires { 49 + 12 * length records.now ≤ length out.old }
    ensures { Front out.old (accepted_text value records.now cells) out.new result }
{
    let mut to = Writer { out, at: 0 };
    first_line(&mut to, Answer { number: 0, value });
    record_lines(&mut to, records);
    area_line(&mut to, cells);
    to.at
}

// The whole text of a refusal, at the front of `out`; answers its length.
// It takes an `Answer`, and no `Refusal`: what may not change is that the clause of `refused` holds of every number and value, and a case of the table would ask more.
pub fn refused(out: &mut [u8], given: Answer) -> usize
    requires { 42 ≤ length out.old }
    ensures { Front out.old (first_line (said given)) out.new result }
{
    let mut to = Writer { out, at: 0 };
    first_line(&mut to, given);
    to.at
}
