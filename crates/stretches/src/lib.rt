// From the covers at the last line and those now, to the stretches of one line: as far as neighbouring strips change alike.
#![tactic(auto)]

ghost use Rattle.std.specs.Prelude.{◌≡◌, true, false, not, ◌+◌, ◌≤◌, length, get_or};
ghost use Rattle.stretches.specs.Stretches.{StripsIn, RowsIn, Alike, Skipped, Filled, NextIs};

// The strips from `from` on, below `to`: all came inside, or all went out.
#[derive(Clone, Copy, Debug, PartialEq, Eq)]
pub struct Stretch {
    pub from: usize,
    pub to: usize,
    pub inside: bool,
}

// The strips of a line, below hi: their covers now, and which covers are inside.
//
// That the strips from r on can be looked at (`RowsIn`) is asked by `skip`, `fill` and `next`. No plainer as an invariant of a line: it speaks of told and of r too, and a line holds neither.
#[derive(Clone, Copy)]
pub struct Line<'a> {
    pub covers: &'a [u8],
    pub truth: &'a [bool],
    pub hi: usize,
}

impl Line<'_> {
    // Whether a strip with this cover is inside.
    fn holds(self, cover: u8) -> bool
        requires { length self.truth.now ≡ 256 }
        ensures { result ≡ get_or self.entry.truth.now cover false }
    {
        self.truth[usize::from(cover)]
    }
}

// The strips that are looked at together.
const BLOCK: usize = 64;

// Whether none of the block's covers from a on is another: one pass to its end, which the compiler turns into vector code.
//
// By index. No plainer over the two slices zipped: each would first be cut out of its column.
fn quiet(told: &[u8], covers: &[u8], a: usize) -> bool
    requires { StripsIn told.now covers.now a (a + 64) }
    ensures { result ≡ true → Alike told.now covers.now a (a + 64) }
{
    let mut n = 0;
    for k in 0..BLOCK {
        n += u8::from(told[a + k] != covers[a + k]);
    }
    n == 0
}

// From r on past whole blocks of strips whose covers are the same: to the first block that is not quiet or not whole.
fn skip_blocks(told: &[u8], covers: &[u8], r: usize, hi: usize) -> usize
    requires { StripsIn told.now covers.now r hi }
    ensures { (r ≤ result) × (result ≤ hi) × Alike told.now covers.now r result }
{
    let mut q = r;
    // Tried, and it misses the bar of bench/README.md that this meets: a `for` over `(r..hi).step_by(BLOCK)` proves, but tests the end three times a turn, which costs a call up to
    // 7 in a hundred.
    while q + BLOCK <= hi && quiet(told, covers, q) {
        q += BLOCK;
    }
    q
}

// The first strip from r on that comes inside or goes out, where there is one. The covers that were passed are told.
//
// Told and covers stay two columns, and no column of pairs, which is no plainer: the covers are those of the rows, which an edge changes and told does not know,
// and a block of each column is compared in one pass.
fn skip(told: &mut [u8], line: Line<'_>, r: usize) -> Option<usize>
    requires { RowsIn told.old line.covers.now line.truth.now r line.hi }
    ensures { Skipped told.old told.new line.entry.covers.now line.entry.truth.now r line.entry.hi result }
{
    for q in skip_blocks(told, line.covers, r, line.hi)..line.hi {
        let cover = line.covers[q];
        if line.holds(told[q]) != line.holds(cover) {
            return Some(q);
        }
        told[q] = cover;
    }
    None
}

// Whether a strip changes, and to b. A strip that changes the other way is past a touching corner.
//
// No plainer: the three flags are values, and none says which step to run.
fn comes_to(was: bool, is: bool, b: bool) -> bool
    ensures { (result ≡ true → (was ≡ not b) × (is ≡ b)) × (result ≡ false → was ≡ not b → is ≡ b → ⊥) }
{
    was != is && is == b
}

// The strips from r on that become b, as far as they do: the stretch ends where nothing changes, and where the change turns at a touching corner.
fn fill(told: &mut [u8], line: Line<'_>, r: usize, b: bool) -> usize
    requires { RowsIn told.old line.covers.now line.truth.now r line.hi }
    ensures { Filled told.old told.new line.entry.covers.now line.entry.truth.now r line.entry.hi b result }
{
    for q in r..line.hi {
        let new = line.covers[q];
        if !comes_to(line.holds(told[q]), line.holds(new), b) {
            return q;
        }
        told[q] = new;
    }
    line.hi
}

// The next stretch from strip r on, below hi, where there is one. The covers up to its end are told; where there is none, all are.
// Cost: the strips from r to its end.
pub fn next(told: &mut [u8], line: Line<'_>, r: usize) -> Option<Stretch>
    requires { RowsIn told.old line.covers.now line.truth.now r line.hi }
    ensures { NextIs told.old told.new line.entry.covers.now line.entry.truth.now r line.entry.hi result }
{
    let s = skip(told, line, r)?;
    let inside = line.holds(line.covers[s]);
    let e = fill(told, line, s, inside);
    Some(Stretch {
        from: s,
        to: e,
        inside,
    })
}
