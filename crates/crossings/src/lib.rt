// The sweep by edges: the edges of one place, in the order of y, across the rows of the strips.
#![tactic(auto)]

ghost use Rattle.std.specs.Prelude.{◌≡◌, ◌≢◌, ℕ, ◌+◌, ◌%◌, ◌<◌, List, length, get_or};
ghost use Rattle.strips.specs.Lent.{Lent};
ghost use Rattle.strips.specs.Strips.{lower, upper};
ghost use Rattle.marks.specs.Marks.{FreshMarks};
ghost use Rattle.crossings.specs.declared.Reach.{Reach};
ghost use Rattle.crossings.specs.Swept.{height_of, layer_of, from_of, to_of, PassOk, AdvanceOk, Advanced, MarkOk, MarkAllOk, many_at};
ghost use Rattle.crossings.specs.Steps.{StepLaws};
ghost use Rattle.crossings.specs.StripSteps.{StripsPassed, StripsHeld, strips_laws};
ghost use Rattle.crossings.specs.MarkSteps.{EdgeMarked, MarksHeld, marks_laws};

use strips::Strips;

// From so many edges at one y on it is faster to mark their ends and to sum the marks up along the strips once; with fewer, to cross the strips edge by edge.
// It chooses the way only: the answer does not depend on it.
const MANY: usize = 32;

// The edges: a word stands for each, 8,192 times how far its y lies above the least, and its number k. Its layer stands at k in `layers`, the ranks of its from and to at
// k + k and k + k + 1 in `ends`.
#[derive(Clone, Copy)]
pub struct Edges<'a> {
    pub words: &'a [u64],
    pub layers: &'a [u8],
    pub ends: &'a [u16],
}

// The strips from lo on, below hi, were touched; next is the first edge of another place.
#[derive(Clone, Copy)]
pub struct Touched {
    pub next: usize,
    pub lo: usize,
    pub hi: usize,
}

// The ends of an edge, the lesser first.
#[derive(Clone, Copy)]
pub struct Reach {
    pub lo: usize,
    pub hi: usize,
}

#[tactic(auto, unfolding(words::specs::Words::place_of))]
impl Edges<'_> {
    // The layer of the edge of a word.
    fn layer(self, w: u64) -> usize
        requires { w % 8192 < length self.layers.now }
        ensures { result ≡ layer_of self.entry.layers.now w }
    {
        usize::from(self.layers[words::place(w)])
    }

    // The rank of its from.
    fn from(self, w: u64) -> usize
        requires { w % 8192 + w % 8192 < length self.ends.now }
        ensures { result ≡ from_of self.entry.ends.now w }
    {
        let k = words::place(w);
        usize::from(self.ends[k + k])
    }

    // The rank of its to.
    fn to(self, w: u64) -> usize
        requires { w % 8192 + w % 8192 + 1 < length self.ends.now }
        ensures { result ≡ to_of self.entry.ends.now w }
    {
        let k = words::place(w);
        usize::from(self.ends[k + k + 1])
    }
}

impl Reach {
    // Of an edge from rank f to rank t.
    fn of(f: usize, t: usize) -> Reach
        ensures lo { result.lo ≡ lower f t }
        ensures hi { result.hi ≡ upper f t }
    {
        Reach {
            lo: t.min(f),
            hi: t.max(f),
        }
    }
}

// What is done with one edge: it is passed, or its ends are marked.
trait Step {
    // What is there before the first edge of a place.
    ghost starts: { ℕ → List ℕ → List ℕ → List ℕ → ℕ → Self → Type 0 };

    // What an edge asks for.
    ghost asks: { ℕ → ℕ → List ℕ → List ℕ → Self → Type 0 };

    // What is done with it.
    ghost does: { ℕ → ℕ → List ℕ → List ℕ → Self → Self → Reach → Type 0 };

    // What is there after the edges of the place that are done.
    ghost holds: { ℕ → List ℕ → List ℕ → List ℕ → ℕ → Self → ℕ → ℕ → ℕ → Self → Type 0 };

    ghost laws: { StepLaws starts asks does holds };

    fn step(&mut self, w: u64, edges: Edges<'_>, n: usize) -> Reach
        requires { asks n w edges.layers.now edges.ends.now self.old }
        ensures { does n w edges.entry.layers.now edges.entry.ends.now self.old self.new result };
}

// One edge across the strips that it spans. Cost: these strips.
impl Step for Strips<'_> {
    ghost starts = { λ n ws layers ends g s. AdvanceOk n ws layers ends g s.counts.now s.covers.now };

    ghost asks = { λ n w layers ends s. PassOk n w layers ends s.counts.now s.covers.now };

    ghost does = { StripsPassed };

    ghost holds = { StripsHeld };

    ghost laws = { strips_laws };

    fn step(&mut self, w: u64, edges: Edges<'_>, n: usize) -> Reach {
        let f = edges.from(w);
        let t = edges.to(w);
        strips::cross(self, n, edges.layer(w), f, t);
        Reach::of(f, t)
    }
}

// The marks, lent.
#[derive(Drop)]
struct Marks<'a> {
    marks: &'a mut [u16],
}

// The marks of one edge.
impl Step for Marks<'_> {
    ghost starts = { λ n ws layers ends g s. MarkAllOk n ws layers ends g s.marks.now };

    ghost asks = { λ n w layers ends s. MarkOk n w layers ends s.marks.now };

    ghost does = { EdgeMarked };

    ghost holds = { MarksHeld };

    ghost laws = { marks_laws };

    fn step(&mut self, w: u64, edges: Edges<'_>, n: usize) -> Reach {
        let f = edges.from(w);
        let t = edges.to(w);
        marks::mark(self.marks, n, edges.layer(w), f, t);
        Reach::of(f, t)
    }
}

// The step with each edge of the place of edge g.
fn each<S: Step>(edges: Edges<'_>, g: usize, n: usize, on: &mut S) -> Touched
    requires { S.starts n edges.words.now edges.layers.now edges.ends.now g on.old }
    ensures held { S.holds n edges.entry.words.now edges.entry.layers.now edges.entry.ends.now g on.old result.next result.lo result.hi on.new }
    ensures stop { result.next < length edges.entry.words.now → height_of (get_or edges.entry.words.now result.next 0) ≢ height_of (get_or edges.entry.words.now g 0) }
{
    let y = words::height(edges.words[g]);
    let mut lo = n;
    let mut hi = 0;
    for e in g..edges.words.len() {
        let w = edges.words[e];
        if words::height(w) != y {
            return Touched { next: e, lo, hi };
        }
        let s = on.step(w, edges, n);
        lo = lo.min(s.lo);
        hi = hi.max(s.hi);
    }
    Touched {
        next: edges.words.len(),
        lo,
        hi,
    }
}

// The ends of the edges of the place of edge g marked, and the marks summed up along the strips. Cost: the edges, and for each layer the strips from the least end to the greatest.
fn marked(
    edges: Edges<'_>,
    g: usize,
    n: usize,
    strips: &mut Strips<'_>,
    marks: &mut [u16],
) -> Touched
    requires { AdvanceOk n edges.words.now edges.layers.now edges.ends.now g strips.old.counts.now strips.old.covers.now × FreshMarks n marks.old }
    ensures advanced { Advanced n edges.entry.words.now edges.entry.layers.now edges.entry.ends.now g strips.old.counts.now strips.new.counts.now strips.old.covers.now strips.new.covers.now result }
    ensures fresh { marks.new ≡ marks.old }
    ensures lent { Lent strips.old strips.new }
{
    let mut m = Marks { marks };
    let t = each(edges, g, n, &mut m);
    marks::sum_all(strips, m.marks, n, t.lo, t.hi);
    t
}

// Whether MANY edges or more lie at the place of edge g, where the words are in the order of y.
fn many(ws: &[u64], g: usize) -> bool
    requires { g < length ws.now }
    ensures { result ≡ many_at ws.now g }
{
    MANY <= ws.len() - g && words::height(ws[g + MANY - 1]) == words::height(ws[g])
}

// The edges of the place of edge g, the faster way. The marks are fresh, before and after.
pub fn advance(
    edges: Edges<'_>,
    g: usize,
    n: usize,
    strips: &mut Strips<'_>,
    marks: &mut [u16],
) -> Touched
    requires { AdvanceOk n edges.words.now edges.layers.now edges.ends.now g strips.old.counts.now strips.old.covers.now × FreshMarks n marks.old }
    ensures advanced { Advanced n edges.entry.words.now edges.entry.layers.now edges.entry.ends.now g strips.old.counts.now strips.new.counts.now strips.old.covers.now strips.new.covers.now result }
    ensures fresh { marks.new ≡ marks.old }
    ensures lent { Lent strips.old strips.new }
{
    if many(edges.words, g) {
        return marked(edges, g, n, strips, marks);
    }
    each(edges, g, n, strips)
}
