// The horizontals of one line, read from the strips whose covers have changed since the last one.
#![tactic(auto)]

ghost use Rattle.std.specs.Prelude.{◌≡◌, not, ◌≤◌, ◌<◌};
ghost use Rattle.meaning.specs.Cells.{turn};
ghost use Rattle.meaning.specs.Records.{run};
ghost use Rattle.grid_laws.specs.Plane.{record_at};
ghost use Rattle.horizontal.specs.Words.{word_of};
ghost use Rattle.levels.specs.Line.{line_of, LineOk, LineRead};

use stretches::{Line, Stretch};

// What was read so far: how many records there are, and the sum with their weights.
#[derive(Clone, Copy)]
pub struct Reading {
    pub count: usize,
    pub sum: u64,
}

// The word of a stretch at y: one that came inside goes west, one that went out goes east.
fn directed(y: u32, s: Stretch) -> u64
    requires { (y ≤ 2147483648) × (s.from < 8192) × (s.to < 8192) }
    ensures { result ≡ word_of (record_at 0 y (run s.from s.to (turn (not s.inside) s.inside))) }
{
    if s.inside {
        return horizontal::word(y, s.to, s.from);
    }
    horizontal::word(y, s.from, s.to)
}

// The records of the line at y, after those that were read so far, each as a word, and the sum with their weights. Only strips from lo on, below the line's hi,
// have another cover than at the last line; then all are told. Cost: these strips.
pub fn read(
    loc: &mut [u64],
    mut so_far: Reading,
    y: u32,
    vx: &[u32],
    told: &mut [u8],
    line: Line<'_>,
    lo: usize,
) -> Reading
    requires { LineOk loc.old so_far.count y vx.now told.old line.covers.now line.truth.now lo line.hi }
    ensures { LineRead loc.old so_far.count so_far.sum vx.now line.entry.covers.now (line_of y vx.now told.old line.entry.covers.now line.entry.truth.now) loc.new told.new result }
{
    let mut r = lo;
    // The count is the place of the next word.
    //
    // No plainer as a `for`: over the places of loc it would need an answer for where they end, which is never reached; over an Iterator of our own, which would borrow told
    // for its whole life, the iterator's members would have to say at each step what was told, as `next` does.
    while let Some(s) = stretches::next(told, line, r) {
        loc[so_far.count] = directed(y, s);
        so_far.sum = weights::weighed(so_far.sum, y, vx[s.from], vx[s.to], s.inside);
        so_far.count += 1;
        r = s.to;
    }
    so_far
}
