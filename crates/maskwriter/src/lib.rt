// Writing a mask file.
#![tactic(auto)]

ghost use Rattle.std.specs.Prelude.{◌≡◌, ◌≤◌};
ghost use Rattle.meaning.specs.Numbers.{limit};
ghost use Rattle.meaning.specs.MaskFile.{spelt, five, bytes_of};
ghost use Rattle.meaning.specs.Faults.{Begins, FileSpells, Written};
ghost use Rattle.answers.specs.Told.{told};
ghost use Rattle.rings.specs.State.{greatest};
ghost use Rattle.ringwalk.specs.Made.{Follows};
ghost use Rattle.maskwriter.specs.Stored.{difference, stored_of};
ghost use Rattle.maskwriter.specs.Filed.{file_laws};

use answers::Refusal;
use rings::State;
use ringwalk::Made;

// The stored difference of v from p.
fn difference(p: u64, v: u64) -> u64
    requires { (p ≤ greatest) × (v ≤ greatest) }
    ensures { result ≡ difference p v }
{
    if v < p {
        return 2 * (p - v) + 1;
    }
    2 * (v - p)
}

// The due number v, as a file stores it.
#[tactic(auto, unfolding(crate::specs::Stored::stored_of))]
fn stored(s: State, v: u64) -> u64
    requires { Follows s v }
    ensures { result ≡ stored_of s v }
{
    s.before().map_or(v, |p| difference(p, v))
}

// The bytes of a mask file, as what is made of a ring list.
struct File;

impl Made for File {
    type Item = u8;

    ghost begins = { Begins limit (FileSpells five) (spelt five 1) };

    ghost adds = { λ s v. spelt five (stored_of s v) };

    ghost make = { bytes_of five };

    ghost laws = { file_laws };

    fn begin(out: &mut [u8]) -> usize {
        numbers::put_number(out, 0, numbers::EDITION, numbers::GROUPS)
    }

    fn add(out: &mut [u8], n: usize, s: State, v: u64) -> usize {
        numbers::put_number(out, n, stored(s, v), numbers::GROUPS)
    }
}

// The mask file of a ring list: how many bytes were written, or the refusal.
#[tactic(auto, unfolding(meaning::specs::Faults::Written))]
pub fn write(rings: &[i32], file: &mut [u8]) -> Result<u64, Refusal>
    ensures { Written rings.now file.old (told result, file.new) }
{
    ringwalk::make::<File>(rings, file)
}
