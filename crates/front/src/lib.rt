// An edge list made ready for the sweep: in steps, its x ranked, and whether it is closed.
#![tactic(auto)]

ghost use Rattle.std.specs.Prelude.{◌≡◌, map, length};
ghost use Rattle.meaning.specs.Numbers.{limit};
ghost use Rattle.meaning.specs.Edges.{edges_of};
ghost use Rattle.basic_laws.specs.Sound.{lifted};
ghost use Rattle.front.specs.Ranking.{RankOk, Ranking};

use closure::Open;

// The columns of an edge list: in layers, ys and xs its edges in steps, in vx the distinct x, in ends the rank of each x. They are lent together.
#[derive(Drop)]
pub struct Columns<'a> {
    pub layers: &'a mut [u8],
    pub ys: &'a mut [u32],
    pub xs: &'a mut [u32],
    pub ends: &'a mut [u16],
    pub vx: &'a mut [u32],
}

// How many distinct x the list has, where it is closed; otherwise the rank of the x at which it first is not, from the west. The columns are made here.
// c is fresh before, and again where the list is closed. What ws and room hold at the end is of no use, nor what vx holds after the distinct x.
pub fn rank(
    edges: &[i32],
    columns: &mut Columns<'_>,
    ws: &mut [u64],
    room: &mut [u64],
    n: usize,
    c: &mut [u16],
) -> Result<usize, Open>
    requires { RankOk edges.now columns.old.layers.now columns.old.ys.now columns.old.xs.now columns.old.ends.now columns.old.vx.now ws.old room.old n c.old }
    ensures ranked { Ranking edges.now columns.new.layers.now columns.new.ys.now columns.new.xs.now columns.new.ends.now columns.new.vx.now n c.old c.new result }
    ensures long_edges { (length columns.new.layers.now ≡ length columns.old.layers.now) × (length columns.new.ys.now ≡ length columns.old.ys.now) }
    ensures long_ends { (length columns.new.xs.now ≡ length columns.old.xs.now) × (length columns.new.ends.now ≡ length columns.old.ends.now) × (length columns.new.vx.now ≡ length columns.old.vx.now) }
    ensures lent { (columns.new.layers.ghost_name ≡ columns.old.layers.ghost_name) × (columns.new.ys.ghost_name ≡ columns.old.ys.ghost_name) × (columns.new.xs.ghost_name ≡ columns.old.xs.ghost_name) × (columns.new.ends.ghost_name ≡ columns.old.ends.ghost_name) × (columns.new.vx.ghost_name ≡ columns.old.vx.ghost_name) }
{
    let layers = &mut *columns.layers;
    let ys = &mut *columns.ys;
    let xs = &mut *columns.xs;
    let ends = &mut *columns.ends;
    let vx = &mut *columns.vx;
    lifting::lift(edges, layers, ys, xs);
    let nx = axis::ranked(xs, ws, room, vx, ends);
    closure::test(layers, ends, n, nx, c)?;
    Ok(nx)
}
