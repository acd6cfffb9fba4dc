// The expression: the judging call, and the table of its values at all covers.
// A rule of the project: the specification, under "The form each place takes", has a reader's answer opened by `let .. else`, so there is no `?` and no `match` at one.
#![tactic(auto)]

ghost use Rattle.std.specs.Prelude.{◌≡◌, true, false, ◌+◌, ◌^◌, ◌<◌};
ghost use Rattle.meaning.specs.Expression.{often, Deep, Judged};
ghost use Rattle.expression_laws.specs.Cover.{cover_of, Entry, Table};
ghost use Rattle.expression_laws.specs.Doubling.{Filled};
ghost use Rattle.answers.specs.Told.{verdict};

use answers::Refusal;
use scanline::Scanline;

// The most bytes of an expression.
const LONGEST: usize = 64;

// The most parentheses that may be open.
const DEEPEST: usize = 16;

// The layers.
const LAYERS: u8 = Scanline::LAYERS as u8;

// The covers: each layer covers or not.
pub const COVERS: usize = 1 << Scanline::LAYERS;

// Has some beginning over 16 more `(` than `)`?
fn too_deep(text: &[u8]) -> bool
    ensures { (result ≡ true → Deep text.now) × (result ≡ false → Deep text.now → ⊥) }
{
    // Both are counted from zero, so that an early `)` stays counted.
    let mut opens: usize = 0;
    let mut closes: usize = 0;
    for b in text {
        opens += usize::from(*b == b'(');
        closes += usize::from(*b == b')');
        if closes + DEEPEST < opens {
            return true;
        }
    }
    false
}

// Judges a text as an expression.
pub fn judge(text: &[u8]) -> Result<(), Refusal>
    ensures { Judged text.now (verdict result) }
{
    if !(1..=LONGEST).contains(&text.len()) {
        return Err(Refusal::ExpressionLength);
    }
    if too_deep(text) {
        return Err(Refusal::TooDeep);
    }
    let r = readers::whole(text, 0);
    let Some((unbounded, _)) = r else {
        return Err(Refusal::NotInGrammar);
    };
    if unbounded {
        return Err(Refusal::HoldsOnNothing);
    }
    Ok(())
}

// The number of the answer to a judged text: 0 where it is accepted, else that of the refusal.
pub fn number(judged: Result<(), Refusal>) -> u64
    ensures { result ≡ (verdict judged).number }
{
    match judged {
        Ok(_) => 0,
        Err(refusal) => refusal.number(),
    }
}

// The value where the layers that cover are handed, and false where the text is not in the grammar.
fn value(text: &[u8], handed: readers::Handed) -> bool
    ensures { Entry text.now (cover_of handed) result }
{
    let r = readers::whole(text, handed);
    let Some((v, _)) = r else {
        return false;
    };
    v
}

// Does the byte b stand in the text?
fn stands(text: &[u8], b: u8) -> bool
    ensures { (result ≡ true → often b text.now ≡ 0 → ⊥) × (result ≡ false → often b text.now ≡ 0) }
{
    text.contains(&b)
}

// One layer more: the covers without it, which come before, have their entries, and those with it get theirs. Where its letter does
// not stand in the text, an entry with the layer is the one without it, and nothing is read. A layer is a number below 8: see `strips::turned`.
//
// It is not inlined: so the table is filled where the caller of `table` wants it, and no copy of it is made, nor kept on the stack.
#[inline(never)]
fn add_layer(text: &[u8], truth: &mut [bool; COVERS], layer: u8)
    requires { (layer < 8) × Filled text.now (2 ^ layer) truth.old }
    ensures { Filled text.now (2 ^ (layer + 1)) truth.new }
{
    let half = 1 << layer;
    let read = stands(text, b'a' + layer);
    for m in half..half + half {
        // The cast stays: m is below 256, and `u8::try_from` would answer a refusal that cannot come.
        truth[m] = if read {
            value(text, m as u8)
        } else {
            truth[m - half]
        };
    }
}

// The values at all 256 covers; all false where the text is not in the grammar. With k different letters of a to h in it the text is read
// 2^k times; an accepted text has at most 64 bytes.
pub fn table(text: &[u8]) -> [bool; COVERS]
    ensures { Table text.now result }
{
    let mut truth = [false; COVERS];
    truth[0] = value(text, 0);
    for layer in 0..LAYERS {
        add_layer(text, &mut truth, layer);
    }
    truth
}
