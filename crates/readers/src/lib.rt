// The readers of an expression: a sum is made of products, a product of factors, and a factor may hold a sum in parentheses again.
// A rule of the project: the specification, under "The form each place takes", has each answer opened by `let .. else`, with the refusal handed straight on, so there is no `?`.
#![tactic(auto)]

ghost use Rattle.std.specs.Prelude.{◌≡◌};
ghost use Rattle.meaning.specs.Expression.{joins};
ghost use Rattle.expression_laws.specs.Reader.{tight, loose, operator_of, IsLetter, layer_of, letter_at, a_factor, a_product, a_sum};
ghost use Rattle.expression_laws.specs.Cover.{cover_of};
ghost use Rattle.readers.specs.Pieces.{piece_of, reads_as, Whole};

// What is handed to the evaluator: the layers that cover, the layer l as the digit that counts 2^l.
pub type Handed = u8;

// What reading a piece gives: its value with the place after it, or a refusal.
pub type Piece = Option<(bool, usize)>;

// Does the layer of a letter cover?
#[tactic(auto, unfolding(basic_laws::specs::Bits::bit_at))]
fn covered(handed: Handed, letter: u8) -> bool
    requires { IsLetter letter }
    ensures { result ≡ cover_of handed (layer_of letter) }
{
    (handed >> (letter - b'a')) % 2 == 1
}

// Reads a letter.
#[tactic(auto, using(std::proofs::lemmas::Bool::Decides::nat_tests, std::proofs::lemmas::Option::gets), unfolding(expression_laws::specs::Reader::letter_at, meaning::specs::Expression::eval))]
fn letter(text: &[u8], at: usize, handed: Handed) -> Piece
    ensures { result ≡ piece_of (cover_of handed) (letter_at text.now at) }
{
    let Some(&b) = text.get(at) else {
        return None;
    };
    if !(b'a'..=b'h').contains(&b) {
        return None;
    }
    Some((covered(handed, b), at + 1))
}

// What the operator whose byte is op makes of its two operands.
//
// No plainer with an enum of the operators: op is the byte that stands in the text, and an enum would be made of it by the same match.
fn combined(op: u8, v: bool, w: bool) -> bool
    ensures { result ≡ joins (operator_of op) v w }
{
    match op {
        b'*' => v && w,
        b'-' => v && !w,
        b'+' => v || w,
        _ => v != w,
    }
}

// Is op an operator of a product?
fn is_tight(op: u8) -> bool
    ensures { result ≡ tight op }
{
    op == b'*' || op == b'-'
}

// Is op an operator of a sum?
fn is_loose(op: u8) -> bool
    ensures { result ≡ loose op }
{
    op == b'+' || op == b'^'
}

// Reads a factor: `!` before a factor, a sum in parentheses, or a letter.
#[cycle(factor_product_sum)]
fn factor(text: &[u8], at: usize, handed: Handed) -> Piece
    ensures { result ≡ reads_as (cover_of handed) text.now a_factor at }
{
    let Some(&b) = text.get(at) else {
        return None;
    };
    // One place for the answers that are opened, here and in `product` and `sum`: a `let` for each takes 24 bytes of the stack more, at every `!` and `(`.
    let r;
    if b == b'!' {
        r = factor(text, at + 1, handed);
        let Some((v, next)) = r else {
            return r;
        };
        return Some((!v, next));
    }
    if b == b'(' {
        r = sum(text, at + 1, handed);
        let Some((v, next)) = r else {
            return r;
        };
        let Some(b')') = text.get(next) else {
            return None;
        };
        return Some((v, next + 1));
    }
    // A letter's answer is opened too, and its value given anew. As it is it would be copied with the bytes that lie between its fields, and reading takes half as long again.
    r = letter(text, at, handed);
    let Some((v, next)) = r else {
        return r;
    };
    Some((v, next))
}

// `product` and `sum` stay two functions. A rule of the project: the specification, under "The form each place takes", names readers of a sum, a product and a factor that call each other.

// Reads a product: factors, with `*` and `-` between them, from left to right.
//
// It is made part of `sum` by the compiler: so most letters are read with one call and one answer less, and a `(` takes less of the stack.
#[cycle(factor_product_sum)]
#[inline(always)]
fn product(text: &[u8], at: usize, handed: Handed) -> Piece
    ensures { result ≡ reads_as (cover_of handed) text.now a_product at }
{
    let mut r = factor(text, at, handed);
    let Some((lead, after)) = r else {
        return r;
    };
    let mut v = lead;
    let mut i = after;
    while let Some(&op) = text.get(i) {
        if !is_tight(op) {
            return Some((v, i));
        }
        r = factor(text, i + 1, handed);
        let Some((w, next)) = r else {
            return r;
        };
        v = combined(op, v, w);
        i = next;
    }
    Some((v, i))
}

// Reads a sum: products, with `+` and `^` between them, from left to right.
#[cycle(factor_product_sum)]
fn sum(text: &[u8], at: usize, handed: Handed) -> Piece
    ensures { result ≡ reads_as (cover_of handed) text.now a_sum at }
{
    let mut r = product(text, at, handed);
    let Some((lead, after)) = r else {
        return r;
    };
    let mut v = lead;
    let mut i = after;
    while let Some(&op) = text.get(i) {
        if !is_loose(op) {
            return Some((v, i));
        }
        r = product(text, i + 1, handed);
        let Some((w, next)) = r else {
            return r;
        };
        v = combined(op, v, w);
        i = next;
    }
    Some((v, i))
}

// Reads the whole text.
pub fn whole(text: &[u8], handed: Handed) -> Piece
    ensures { Whole text.now (cover_of handed) result }
{
    let r = sum(text, 0, handed);
    let Some((v, next)) = r else {
        return r;
    };
    if next < text.len() {
        return None;
    }
    Some((v, next))
}
