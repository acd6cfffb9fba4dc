// The rows of the strips. A strip lies between two neighbouring distinct x, and has a rank. Of each layer there is a count for each strip, raised by
// Scanline::ZERO; a layer has n of them, and the layers stand one after the other. Beside them each strip has a cover: a digit for each layer.
#![tactic(auto)]

ghost use Rattle.std.specs.Prelude.{◌≡◌, ◌*◌, ◌<◌, ◌≤◌, pos, ◌-ℤ◌, length};
ghost use Rattle.meaning.specs.Numbers.{bit};
ghost use Rattle.meaning.specs.Edges.{covers};
ghost use Rattle.strips.specs.Cover.{turned_to};
ghost use Rattle.strips.specs.Lent.{Lent};
ghost use Rattle.strips.specs.Strips.{TakeOk, Taken, CrossOk, Crossed};

use scanline::Scanline;

// The rows: the counts of all layers, and the covers. They are lent together.
#[derive(Drop)]
pub struct Strips<'a> {
    pub counts: &'a mut [u16],
    pub covers: &'a mut [u8],
}

// Whether a layer with this count covers.
fn covering(count: u16) -> bool
    ensures { result ≡ covers (pos count -ℤ pos 8192) }
{
    Scanline::ZERO < count
}

// The cover with the digit of a layer made 1 where the layer covers, else 0. By a mask, and not by shifts of the cover: the mask is the same all along a pass.
//
// No plainer: `covered` is what the digit is to be, and a closure in its place would hide that.
// A layer is a number below 8, here and in `scanline`, `marks` and `expression`. No plainer as a type, which would be opened at each array and each digit.
fn turned(cover: u8, layer: usize, covered: bool) -> u8
    requires { layer < 8 }
    ensures { result ≡ turned_to cover layer (bit covered) }
{
    let digit = 1u8 << layer;
    if covered {
        cover | digit
    } else {
        cover & !digit
    }
}

// The strips from a on, below b, take over the layer's count that was handed on, and set its digit in their covers anew.
//
// One pass over neighbours, which the compiler turns into vector code: so it has the two slices, and not the struct.
pub fn take_over(
    c: &mut [u16],
    covers: &mut [u8],
    n: usize,
    layer: usize,
    a: usize,
    b: usize,
    handed: u16,
)
    requires { TakeOk n layer a b handed c.old covers.old }
    ensures { Taken n layer a b handed c.old c.new covers.old covers.new }
{
    let base = layer * n;
    for r in a..b {
        let k = c[base + r] + handed - Scanline::ZERO;
        c[base + r] = k;
        covers[r] = turned(covers[r], layer, covering(k));
    }
}

// One edge, from rank to rank: every strip that it spans takes over the counts that a fresh scanline hands on past it.
// Cost: the strips that it spans.
pub fn cross(strips: &mut Strips<'_>, n: usize, layer: usize, from: usize, to: usize)
    requires { CrossOk n layer from to strips.old.counts.now strips.old.covers.now }
    ensures crossed { Crossed n layer from to strips.old.counts.now strips.new.counts.now strips.old.covers.now strips.new.covers.now }
    ensures lent { Lent strips.old strips.new }
{
    let west = to < from;
    let s = Scanline::fresh();
    let next = s.crossing(layer, west);
    take_over(
        strips.counts,
        strips.covers,
        n,
        layer,
        to.min(from),
        to.max(from),
        next.counts.raised[layer],
    );
}
