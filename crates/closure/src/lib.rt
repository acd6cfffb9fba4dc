// Closed by ends: a list is closed exactly where, in each layer and at each x, as many edges begin as end. Here on the ranks of the x, by marks: a mark stands raised by
// Scanline::ZERO.
#![tactic(auto)]

ghost use Rattle.std.specs.Prelude.{◌≡◌, true, ◌<◌};
ghost use Rattle.marks.specs.Marks.{Marked};
ghost use Rattle.answers.specs.declared.Refusal.TheVariants.{NotClosed};
ghost use Rattle.closure.specs.Testing.{edges_by, RowsOk, EvenRows, EvenTold, Found, TestOk, Tested};

use answers::Refusal;
use scanline::Scanline;

// Not closed: the least rank at which some layer has not as many edges that begin as that end.
#[derive(Clone, Copy, Debug, PartialEq, Eq)]
pub struct Open {
    pub rank: usize,
}

impl From<Open> for Refusal {
    ghost from_gives = { λ least refusal. refusal ≡ NotClosed };

    fn from(_: Open) -> Refusal {
        Refusal::NotClosed
    }
}

// The marks of all edges.
//
// Layers and ends are two slices, and no list of edges, which is no plainer: the ends are the ranks that `axis` puts beside the xs, so a list would be one more array, copied
// from the two.
fn mark_all(layers: &[u8], ends: &[u16], n: usize, c: &mut [u16])
    requires { TestOk layers.now ends.now n n c.old }
    ensures { Marked n (edges_by layers.now ends.now) c.new }
{
    for (k, layer) in layers.iter().enumerate() {
        let from = usize::from(ends[k + k]);
        let to = usize::from(ends[k + k + 1]);
        marks::mark(c, n, usize::from(*layer), from, to);
    }
}

// Whether all marks of the ranks below nx are zero.
fn all_even(c: &[u16], n: usize, nx: usize) -> bool
    requires { RowsOk n nx c.now }
    ensures { result ≡ true → EvenRows n nx c.now }
{
    (0..Scanline::LAYERS).all(|layer| {
        let base = layer * n;
        marks::uneven(&c[base..base + nx]) == 0
    })
}

// Whether the marks of all layers at rank x are zero.
fn even_at(c: &[u16], n: usize, x: usize) -> bool
    requires { RowsOk n n c.now × (x < n) }
    ensures { EvenTold n c.now x result }
{
    (0..Scanline::LAYERS).all(|layer| c[layer * n + x] == Scanline::ZERO)
}

// The first rank below nx at which some layer's marks are not zero.
fn search(c: &[u16], n: usize, nx: usize) -> Result<(), Open>
    requires { RowsOk n nx c.now }
    ensures { Found n nx c.now result }
{
    match (0..nx).find(|x| !even_at(c, n, *x)) {
        Some(rank) => Err(Open { rank }),
        None => Ok(()),
    }
}

// Whether the edges of layers and ends, of which the ranks are below nx, are closed by ends. c is fresh before and has the marks of all edges after, so it is fresh again
// where they are closed.
pub fn test(layers: &[u8], ends: &[u16], n: usize, nx: usize, c: &mut [u16]) -> Result<(), Open>
    requires { TestOk layers.now ends.now n nx c.old }
    ensures { Tested n layers.now ends.now c.new result }
{
    mark_all(layers, ends, n, c);
    if all_even(c, n, nx) {
        return Ok(());
    }
    search(c, n, nx)
}
