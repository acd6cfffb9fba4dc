// The working arrays of a walk, of two sizes: small ones are sooner made.
#![tactic(auto)]

ghost use Rattle.std.specs.Prelude.{◌≡◌, ◌*◌, ◌/◌, ◌≤◌, length};
ghost use Rattle.meaning.specs.Numbers.{limit};
ghost use Rattle.meaning.specs.Answers.{accepted, First};
ghost use Rattle.laws.specs.Accepting.{Passed};
ghost use Rattle.edges.specs.Answering.{list_rows};
ghost use Rattle.walking.specs.Walks.{Walks};

use answers::Refusal;
use scanline::Scanline;
use walking::Arrays;
use writing::Found;

// As many edges walk with small arrays.
const FEW: usize = 256;

// The most edges that a list may have.
const MOST: usize = 4096;

// The walk of a list of at most EDGES edges, with arrays of that size: ENDS, COUNTS and WORDS are how many ends, counts and words they have room for.
//
// It is not inlined: so the arrays are on the stack only where a list is walked, and not where it was refused before; and a short list takes small ones alone.
#[inline(never)]
fn within<const EDGES: usize, const ENDS: usize, const COUNTS: usize, const WORDS: usize>(
    edges: &[i32],
    text: &[u8],
    out: &mut [i32],
) -> Result<Found, Refusal>
    requires judged { First (list_rows 7 limit edges.now) Passed (accepted 0) }
    requires fits { length edges.now / 4 ≤ EDGES }
    requires sizes { (ENDS ≡ 2 * EDGES) × (COUNTS ≡ 8 * ENDS) × (WORDS ≡ 2 * ENDS) }
    requires few { ENDS ≤ 8192 }
    ensures { Walks edges.now text.now out.old out.new result }
{
    let m = edges.len() / 4;
    let k = m + m;
    let mut layers = [0u8; EDGES];
    let mut ys = [0u32; EDGES];
    let mut xs = [0u32; ENDS];
    let mut ends = [0u16; ENDS];
    let mut vx = [0u32; ENDS];
    let mut ws = [0u64; ENDS];
    let mut room = [0u64; ENDS];
    let mut c = [Scanline::ZERO; COUNTS];
    let mut covers = [0u8; ENDS];
    let mut told = [0u8; ENDS];
    let mut marks = [Scanline::ZERO; COUNTS];
    let mut cs = [0u32; ENDS];
    let mut loc = [0u64; WORDS];
    let arrays = Arrays {
        layers: &mut layers[..][0..m],
        ys: &mut ys[..][0..m],
        xs: &mut xs[..][0..k],
        ends: &mut ends[..][0..k],
        vx: &mut vx[..][0..k],
        ws: &mut ws[..][0..k],
        room: &mut room[..][0..k],
        c: &mut c,
        covers: &mut covers,
        told: &mut told,
        marks: &mut marks,
        cs: &mut cs,
        loc: &mut loc,
    };
    walking::work(edges, text, out, ENDS, arrays)
}

// The walk of a list to which refusals 1 to 4 do not apply.
pub fn walk(edges: &[i32], text: &[u8], out: &mut [i32]) -> Result<Found, Refusal>
    requires { First (list_rows 7 limit edges.now) Passed (accepted 0) }
    ensures { Walks edges.now text.now out.old out.new result }
{
    if edges.len() / 4 <= FEW {
        return within::<FEW, 512, 4096, 1024>(edges, text, out);
    }
    within::<MOST, 8192, 65536, 16384>(edges, text, out)
}
