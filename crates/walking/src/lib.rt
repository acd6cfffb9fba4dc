// A walk over an edge list to which refusals 1 to 4 do not apply: the records into the lent buffer, and the inside cells. Every working array is lent.
#![tactic(auto)]

ghost use Rattle.std.specs.Prelude.{◌≡◌, length};
ghost use Rattle.strips.specs.Lent.{Lent, Long};
ghost use Rattle.walking.specs.Walks.{Walks};
ghost use Rattle.walking.specs.Working.{SweepOk, Sweeps, WorkOk, AsLong};

use answers::Refusal;
use crossings::Edges;
use front::Columns;
use strips::Strips;
use sweep::Sweep;
use writing::Found;

// The sweep over edges with ranked x: in order of y, and written. What the working arrays hold at the end is of no use.
//
// Tried with `Arrays` in the place of its arrays, and the proof didn't close: the borrow checker has no rule for a `Sweep` made of references that were taken out of that struct.
fn sweep<'a>(
    out: &mut [i32],
    loc: &mut [u64],
    cs: &mut [u32],
    ws: &'a mut [u64],
    room: &mut [u64],
    layers: &'a [u8],
    ys: &[u32],
    ends: &'a [u16],
    vx: &'a [u32],
    truth: &'a [bool],
    strips: &mut Strips<'_>,
    told: &mut [u8],
    marks: &mut [u16],
) -> Found
    requires { SweepOk ys.now layers.now ends.now truth.now vx.now ws.old room.old loc.old cs.old strips.old.counts.now strips.old.covers.now told.old marks.old }
    ensures swept { Sweeps ys.now layers.now ends.now truth.now vx.now out.old out.new result }
    ensures long { Long strips.old strips.new }
    ensures lent { Lent strips.old strips.new }
{
    let base = axis::in_order(ys, ws, room);
    let edges = Edges {
        words: ws,
        layers,
        ends,
    };
    let given = Sweep {
        edges,
        base,
        vx,
        truth,
    };
    writing::write(out, loc, cs, given, strips, told, marks)
}

// The working arrays of a walk: the columns of the edges in layers, ys, xs and ends, the distinct x in vx, the words of the edges and room to sort them;
// then the strips' counts and covers, what was told of them and their marks; the counters of the verticals, and the words of the horizontals.
#[derive(Drop)]
pub struct Arrays<'a> {
    pub layers: &'a mut [u8],
    pub ys: &'a mut [u32],
    pub xs: &'a mut [u32],
    pub ends: &'a mut [u16],
    pub vx: &'a mut [u32],
    pub ws: &'a mut [u64],
    pub room: &'a mut [u64],
    pub c: &'a mut [u16],
    pub covers: &'a mut [u8],
    pub told: &'a mut [u8],
    pub marks: &'a mut [u16],
    pub cs: &'a mut [u32],
    pub loc: &'a mut [u64],
}

// The walk, with n strips kept; refusals 5 to 10 in their order. What the working arrays hold at the end is of no use; they keep their lengths.
pub fn work(
    edges: &[i32],
    text: &[u8],
    out: &mut [i32],
    n: usize,
    arrays: Arrays<'_>,
) -> Result<Found, Refusal>
    requires { WorkOk edges.now n arrays.layers.now arrays.ys.now arrays.xs.now arrays.ends.now arrays.vx.now arrays.ws.now arrays.room.now arrays.c.now arrays.covers.now arrays.told.now arrays.marks.now arrays.cs.now arrays.loc.now }
    ensures walked { Walks edges.now text.now out.old out.new result }
    ensures long { AsLong arrays.entry arrays.exit }
{
    let Arrays {
        layers,
        ys,
        xs,
        ends,
        vx,
        ws,
        room,
        c,
        covers,
        told,
        marks,
        cs,
        loc,
    } = arrays;
    let mut columns = Columns {
        layers,
        ys,
        xs,
        ends,
        vx,
    };
    let nx = front::rank(edges, &mut columns, ws, room, n, c)?;
    expression::judge(text)?;
    let truth = expression::table(text);
    let Columns {
        layers,
        ys,
        xs: _,
        ends,
        vx,
    } = columns;
    let m = layers.len();
    let mut strips = Strips { counts: c, covers };
    let found = sweep(
        out,
        loc,
        &mut cs[0..nx],
        &mut ws[0..m],
        &mut room[0..m],
        layers,
        ys,
        ends,
        &vx[0..nx],
        &truth,
        &mut strips,
        told,
        marks,
    );
    Ok(found)
}
