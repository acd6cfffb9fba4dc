// The sweep: in the order of y the edges of each place across the strips that they span, and then the line read.
#![tactic(auto)]

ghost use Rattle.std.specs.Prelude.{◌≡◌};
ghost use Rattle.strips.specs.Lent.{Lent, Long};
ghost use Rattle.sweep.specs.Filling.{FillOk, Fills};

use crossings::Edges;
use levels::Reading;
use stretches::Line;
use strips::Strips;

// What a sweep is given: the edges, their words in the order of y and counted from base; the distinct x; and the table of the expression.
#[derive(Clone, Copy)]
pub struct Sweep<'a> {
    pub edges: Edges<'a>,
    pub base: u32,
    pub vx: &'a [u32],
    pub truth: &'a [bool],
}

// The horizontals of the lines from one place on, as far as a whole line has room: the first word of the place after them, and what was read to there.
#[derive(Clone, Copy)]
pub struct Filled {
    pub next: usize,
    pub read: Reading,
}

// The line of the strips as they are now, below hi. It is a function because after a `Line` written out in `fill` the borrow checker no longer knows the covers.
fn line_below<'a>(strips: &'a Strips<'_>, truth: &'a [bool], hi: usize) -> Line<'a>
    ensures covers { result.covers.now ≡ strips.now.covers.now }
    ensures truth { result.truth.now ≡ truth.now }
    ensures hi { result.hi ≡ hi }
{
    Line {
        covers: strips.covers,
        truth,
        hi,
    }
}

// The lines from the place of word g on, to the front of loc; what is left over of loc is too little for one more line, or there is none.
// Cost: the strips that the edges span, and those between the ends of a place's edges.
//
// A rule of the project: there is no heap, so loc is a working array of fixed size, filled from the front.
// Tried with the covers told and the marks in one struct with the strips, and the proof didn't close: `advance` would lend two parts of it at once, and the proof didn't close.
pub fn fill(
    loc: &mut [u64],
    g: usize,
    sum: u64,
    given: Sweep<'_>,
    strips: &mut Strips<'_>,
    told: &mut [u8],
    marks: &mut [u16],
) -> Filled
    requires { FillOk given.base given.edges.words.now given.edges.layers.now given.edges.ends.now given.truth.now given.vx.now g loc.old strips.old.counts.now strips.old.covers.now told.old marks.old }
    ensures filled { Fills given.entry.base given.entry.edges.words.now given.entry.edges.layers.now given.entry.edges.ends.now given.entry.truth.now given.entry.vx.now g sum loc.old loc.new strips.new.counts.now strips.new.covers.now told.new marks.old marks.new result }
    ensures long { Long strips.old strips.new }
    ensures lent { Lent strips.old strips.new }
{
    let Sweep {
        edges,
        base,
        vx,
        truth,
    } = given;
    let n = strips.covers.len();
    let mut e = g;
    let mut so_far = Reading { count: 0, sum };
    while e < edges.words.len() {
        if loc.len() - so_far.count < vx.len() {
            return Filled {
                next: e,
                read: so_far,
            };
        }
        let t = crossings::advance(edges, e, n, strips, marks);
        let y = words::value(base, edges.words[e]);
        let line = line_below(strips, truth, t.hi);
        so_far = levels::read(loc, so_far, y, vx, told, line, t.lo);
        e = t.next;
    }
    Filled {
        next: e,
        read: so_far,
    }
}
