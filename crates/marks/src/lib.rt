// Many edges at one place: their ends are marked, and the marks summed up along the strips. A mark stands raised by Scanline::ZERO.
#![tactic(auto)]

ghost use Rattle.std.specs.Prelude.{◌≡◌, ◌+◌, ◌*◌, ◌-◌, ◌<◌, ◌≤◌, length, get_or, count_by};
ghost use Rattle.strips.specs.Lent.{Lent};
ghost use Rattle.marks.specs.Marks.{SumOk, Summed, LayerOk, AllOk, SummedAll, not_fresh, marked_by};

use scanline::Scanline;
use strips::Strips;

// One end of a layer's edges: one less where an edge starts, one more where it ends.
//
// n is how many strips a row has, here and in the crates above. No plainer as `covers.len()`, which it is where the covers are at hand: every definition and clause here
// speaks of n, and the marks alone are 8 * n numbers. A layer is a number below 8: see `strips::turned`.
pub fn mark(d: &mut [u16], n: usize, layer: usize, from: usize, to: usize)
    requires { (length d.old ≡ 8 * n) × (n ≤ 8192) × (layer < 8) × (from < n) × (to < n) × (0 < get_or d.old (layer * n + from) 0) × (get_or d.old (layer * n + to) 0 < 65535) }
    ensures { d.new ≡ marked_by n layer from to d.old }
{
    let base = layer * n;
    d[base + from] -= 1;
    d[base + to] += 1;
}

// A layer's marks from a on, below b, summed up: each strip takes over the sum so far. The marks are fresh after it.
pub fn sum_up(strips: &mut Strips<'_>, d: &mut [u16], n: usize, layer: usize, a: usize, b: usize)
    requires { SumOk n layer a b strips.old.counts.now strips.old.covers.now d.old }
    ensures summed { Summed n layer a b strips.old.counts.now strips.new.counts.now strips.old.covers.now strips.new.covers.now d.old d.new }
    ensures lent { Lent strips.old strips.new }
{
    let base = layer * n;
    let mut w = Scanline::ZERO;
    for r in a..b {
        w = w + d[base + r] - Scanline::ZERO;
        d[base + r] = Scanline::ZERO;
        strips::take_over(strips.counts, strips.covers, n, layer, r, r + 1, w);
    }
    d[base + b] = Scanline::ZERO;
}

// How many of these marks are not fresh. All are counted, with no way out, so that the compiler makes vector code of it.
pub fn uneven(marks: &[u16]) -> u16
    requires { length marks.now < 65536 }
    ensures { result ≡ count_by not_fresh marks.now }
{
    let mut found = 0;
    for mark in marks {
        found += u16::from(*mark != Scanline::ZERO);
    }
    found
}

// One layer. Marks that are fresh change nothing: most layers of a place are so.
// It stands apart, so that the loops of the sweep, into which all else goes, have the registers to themselves.
#[inline(never)]
fn sum_layer(strips: &mut Strips<'_>, d: &mut [u16], n: usize, layer: usize, a: usize, b: usize)
    requires { LayerOk n layer a b strips.old.counts.now strips.old.covers.now d.old }
    ensures summed { Summed n layer a b strips.old.counts.now strips.new.counts.now strips.old.covers.now strips.new.covers.now d.old d.new }
    ensures lent { Lent strips.old strips.new }
{
    let base = layer * n;
    if uneven(&d[base + a..base + b + 1]) == 0 {
        return;
    }
    sum_up(strips, d, n, layer, a, b);
}

// The marks of all layers from a on, up to b, summed up along the strips. They are fresh after it.
pub fn sum_all(strips: &mut Strips<'_>, d: &mut [u16], n: usize, a: usize, b: usize)
    requires { AllOk n a b strips.old.counts.now strips.old.covers.now d.old }
    ensures summed { SummedAll n a b strips.old.counts.now strips.new.counts.now strips.old.covers.now strips.new.covers.now d.old d.new }
    ensures lent { Lent strips.old strips.new }
{
    for l in 0..Scanline::LAYERS {
        sum_layer(strips, d, n, l, a, b);
    }
}
