// An edge list in steps, in one pass: the layers, the y, and the ends of the edges, with coordinates moved up by 2^30.
#![tactic(auto)]

ghost use Rattle.std.specs.Prelude.{◌≡◌, map, ◌+◌, ◌/◌, ◌<◌, length};
ghost use Rattle.meaning.specs.Numbers.{limit};
ghost use Rattle.meaning.specs.Edges.{edges_of};
ghost use Rattle.basic_laws.specs.Sound.{SoundList, lifted};
ghost use Rattle.lifting.specs.InSteps.{InSteps};

use edge::Record;

// The layer and the y of each edge, and its from and its to side by side in xs.
//
// Three columns, and no list of edges, which is no plainer: `axis` takes the ys, and the xs, as a slice of keys, so a list would be copied into such slices again. The layers are
// read later, each at the place of a word: one byte an edge, and eight if each stood beside its y.
pub fn lift(edges: &[i32], layers: &mut [u8], ys: &mut [u32], xs: &mut [u32])
    requires sound_list { SoundList 7 limit edges.now }
    requires layers_len { (length layers.old ≡ length edges.now / 4) × (length ys.old ≡ length edges.now / 4) × (length xs.old ≡ length edges.now / 4 + length edges.now / 4) }
    ensures { InSteps (map (lifted limit) (edges_of edges.now)) layers.new ys.new xs.new }
{
    for k in 0..layers.len() {
        let edge = Record::at(edges, k).in_steps();
        layers[k] = edge.layer;
        ys[k] = edge.y;
        xs[k + k] = edge.from;
        xs[k + k + 1] = edge.to;
    }
}
