// Going through a ring list number by number, and writing what is made of it: its mask file, or its edges.
#![tactic(auto)]

ghost use Rattle.std.specs.Prelude.{◌≡◌, ℕ, ◌+◌, ◌≤◌, List, length};
ghost use Rattle.std.proofs.lemmas.List.Edits.{sets};
ghost use Rattle.meaning.specs.Rings.{Ring};
ghost use Rattle.meaning.specs.Faults.{Begun, OfList};
ghost use Rattle.answers.specs.Told.{told};
ghost use Rattle.reading_laws.specs.Outcome.{ListOutcome};
ghost use Rattle.rings.specs.declared.State.{State};
ghost use Rattle.ringwalk.specs.Made.{Follows, Starts, MadeLaws};

use answers::Refusal;
use numbers::Number;
use rings::State;

// What is made of a ring list, number by number.
//
// A rule of the project: a place beside the buffer, see `numbers::put`.
pub trait Made {
    type Item;

    // The items that a beginning of a ring list has made.
    ghost begins: { Begun → List Self.Item → Type 0 };

    // The items that a due number adds.
    ghost adds: { State → ℕ → List Self.Item };

    // The items of good rings.
    ghost make: { List Ring → List Self.Item };

    ghost laws: { MadeLaws begins adds make };

    // Writes what stands before the first ring, as far as there is room, and returns the place after it.
    fn begin(out: &mut [Self::Item]) -> usize
        ensures { Starts begins out.old result out.new };

    // Writes at n what the due number v adds, as far as there is room, and returns the place after it.
    fn add(out: &mut [Self::Item], n: usize, s: State, v: u64) -> usize
        requires follows { Follows s v }
        requires room { n ≤ 18446744073709551610 }
        ensures place { result ≡ n + length (adds s v) }
        ensures wrote { out.new ≡ sets out.old n (adds s v) };
}

// Goes through a ring list, and writes what is made of it as far as there is room: the value is how many items it has.
pub fn walk<M: Made>(list: &[i32], out: &mut [M::Item]) -> Result<Number, Refusal>
    ensures { ListOutcome M.make list.now out.old result out.new }
{
    let mut s = rings::begin();
    let mut n = M::begin(out);
    for i in 0..list.len() {
        // A rule of the project: the specification names this form, a refusal handed straight on.
        let number = rings::due_in(list, i, s);
        let Ok(due) = number else {
            return number;
        };
        n = M::add(out, n, s, due.value);
        s = rings::after(s, due.value);
    }
    if rings::may_end(s.due) {
        return Ok(Number {
            value: n as u64,
            next: list.len(),
        });
    }
    Err(Refusal::EndsInside(list.len()))
}

// Writes what is made of a ring list: how many items were written, or the refusal. The walk with no room comes first, so that a refusal changes nothing.
pub fn make<M: Made>(list: &[i32], out: &mut [M::Item]) -> Result<u64, Refusal>
    ensures { OfList M.make list.now out.old (told result, out.new) }
{
    // No plainer as one function with `maskfile::read`: the line there says why.
    numbers::settled(walk::<M>(list, &mut []), out.len())?;
    let written = walk::<M>(list, out)?;
    Ok(written.value)
}
