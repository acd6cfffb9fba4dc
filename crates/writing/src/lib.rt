// The result of a sweep into the lent buffer, or refused with the buffer as it was; and its area.
#![tactic(auto)]

ghost use Rattle.std.specs.Prelude.{◌≡◌, length};
ghost use Rattle.strips.specs.Lent.{Lent, Long};
ghost use Rattle.sweep_laws.specs.Lines.{lines_to};
ghost use Rattle.writing.specs.Writing.{MeasureOk, Measures, AgainOk, written, WriteOk, Wrote};

use answers::Refusal;
use strips::Strips;
use sweep::Sweep;

// How many records were written, or that there was too little room and how many there are; and the inside cells.
#[derive(Clone, Copy)]
pub struct Found {
    pub records: Result<u64, Refusal>,
    pub cells: u64,
}

// How many horizontals there are, how many of them stand in the working array, and the sum of their weights.
#[derive(Clone, Copy)]
pub struct Measured {
    pub all: usize,
    pub last: usize,
    pub sum: u64,
}

// All horizontals counted and weighed, and their ends counted at each x, part by part; the last part stays in loc.
fn measure(
    loc: &mut [u64],
    cs: &mut [u32],
    given: Sweep<'_>,
    strips: &mut Strips<'_>,
    told: &mut [u8],
    marks: &mut [u16],
) -> Measured
    requires { MeasureOk given.base given.edges.words.now given.edges.layers.now given.edges.ends.now given.truth.now given.vx.now loc.old cs.old strips.old.counts.now strips.old.covers.now told.old marks.old }
    ensures measured { Measures given.entry.base given.entry.edges.words.now given.entry.edges.layers.now given.entry.edges.ends.now given.entry.truth.now given.entry.vx.now loc.new cs.new strips.new.counts.now strips.new.covers.now told.new marks.new result }
    ensures long { Long strips.old strips.new }
    ensures lent { Lent strips.old strips.new }
{
    let mut g = 0;
    let mut all = 0;
    let mut last = 0;
    let mut sum = 0;
    while g < given.edges.words.len() {
        let f = sweep::fill(loc, g, sum, given, strips, told, marks);
        last = f.read.count;
        verticals::count(&loc[0..last], cs);
        all += last;
        sum = f.read.sum;
        g = f.next;
    }
    Measured { all, last, sum }
}

// Where the horizontals were too many for the working array: the sweep once more, each part written as it is found.
//
// No plainer with a struct of loc and cs: of the four functions that hand the two on, each would need a clause for each slice, that it is still the one that was lent.
// Nor as one loop with `measure`, over a closure for each part: the closure would be lent cs, and here out too, and its contract would be the two of today under a condition.
fn again(
    h: usize,
    out: &mut [i32],
    loc: &mut [u64],
    cs: &mut [u32],
    given: Sweep<'_>,
    strips: &mut Strips<'_>,
    told: &mut [u8],
    marks: &mut [u16],
)
    requires { AgainOk given.base given.edges.words.now given.edges.layers.now given.edges.ends.now given.truth.now given.vx.now h out.old loc.old cs.old strips.old.counts.now strips.old.covers.now told.old marks.old }
    ensures written { out.new ≡ written given.entry.vx.now (lines_to given.entry.base given.entry.edges.words.now given.entry.edges.layers.now given.entry.edges.ends.now given.entry.truth.now (length given.entry.vx.now) (length given.entry.edges.words.now)) out.old }
    ensures long { Long strips.old strips.new }
    ensures lent { Lent strips.old strips.new }
{
    let mut g = 0;
    let mut n = 0;
    while g < given.edges.words.len() {
        let f = sweep::fill(loc, g, 0, given, strips, told, marks);
        let count = f.read.count;
        parts::put(&loc[0..count], n, h, given.vx, cs, out);
        n += count;
        g = f.next;
    }
}

// The records of all lines: the horizontals, and the verticals from just after them. As many verticals as horizontals are needed, so that it is known
// whether there is room before anything is written. What the working arrays hold at the end is of no use.
// Cost: the sweep, twice where the horizontals are more than loc holds, and the records.
pub fn write(
    out: &mut [i32],
    loc: &mut [u64],
    cs: &mut [u32],
    given: Sweep<'_>,
    strips: &mut Strips<'_>,
    told: &mut [u8],
    marks: &mut [u16],
) -> Found
    requires { WriteOk given.base given.edges.words.now given.edges.layers.now given.edges.ends.now given.truth.now given.vx.now loc.old cs.old strips.old.counts.now strips.old.covers.now told.old marks.old }
    ensures wrote { Wrote given.entry.vx.now (lines_to given.entry.base given.entry.edges.words.now given.entry.edges.layers.now given.entry.edges.ends.now given.entry.truth.now (length given.entry.vx.now) (length given.entry.edges.words.now)) out.old out.new result }
    ensures long { Long strips.old strips.new }
    ensures lent { Lent strips.old strips.new }
{
    let m = measure(loc, cs, given, strips, told, marks);
    let h = m.all;
    let records = 2 * h as u64;
    let cells = m.sum;
    if out.len() < 8 * h {
        return Found {
            records: Err(Refusal::TooLittleRoom(records)),
            cells,
        };
    }
    tallies::starts(cs);
    if m.last == h {
        parts::put(&loc[0..h], 0, h, given.vx, cs, out);
    } else {
        again(h, out, loc, cs, given, strips, told, marks);
    }
    Found {
        records: Ok(records),
        cells,
    }
}
