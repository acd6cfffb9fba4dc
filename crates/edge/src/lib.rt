// One record of an edge list: its tests, and the edge that it is in steps.
#![tactic(auto)]

ghost use Rattle.std.specs.Prelude.{◌≡◌, true, ◌&&◌, ◌+◌, ◌*◌, ◌<◌, pos, nat_abs, length};
ghost use Rattle.std.specs.Int.Signed.{le_z};
ghost use Rattle.meaning.specs.Numbers.{limit, in_range};
ghost use Rattle.meaning.specs.Edges.{sound_edge, flat};
ghost use Rattle.basic_laws.specs.Steps.{lift};
ghost use Rattle.basic_laws.specs.Fours.{edge_at};
ghost use Rattle.edge.specs.Keys.{edge_of};

use scanline::Scanline;

// The last layer.
const LAST_LAYER: i32 = Scanline::LAYERS as i32 - 1;

// The key of the least coordinate: a key is a number moved up by 2^31.
const LEAST: u32 = 2147483648 - Scanline::LIMIT;

// A record: four numbers.
#[derive(Clone, Copy, Debug, PartialEq, Eq)]
pub struct Record {
    pub layer: i32,
    pub y: i32,
    pub from: i32,
    pub to: i32,
}

// An edge in steps: its coordinates moved up by 2^30.
#[derive(Clone, Copy, Debug, PartialEq, Eq)]
pub struct Steps {
    pub layer: u8,
    pub y: u32,
    pub from: u32,
    pub to: u32,
}

fn is_layer(z: i32) -> bool
    ensures { result ≡ (le_z (pos 0) z && le_z z (pos 7)) }
{
    (0..=LAST_LAYER).contains(&z)
}

// A coordinate moved up by 2^30.
fn lifted(z: i32) -> u32
    requires { in_range limit z ≡ true }
    ensures { result ≡ lift limit z }
{
    whole::key(z) - LEAST
}

impl Record {
    // Record k of an edge list.
    #[tactic(auto, unfolding(basic_laws::specs::Fours::edge_at))]
    pub fn at(edges: &[i32], k: usize) -> Self
        requires { 4 * k + 3 < length edges.now }
        ensures { edge_of result ≡ edge_at edges.now k }
    {
        Self {
            layer: edges[4 * k],
            y: edges[4 * k + 1],
            from: edges[4 * k + 2],
            to: edges[4 * k + 3],
        }
    }

    // Whether it has a layer from 0 to 7, and coordinates within the limit.
    #[tactic(auto, using(basic_laws::specs::Signed::read32), unfolding(meaning::specs::Edges::sound_edge))]
    pub fn is_sound(self) -> bool
        ensures { result ≡ sound_edge 7 limit (edge_of self) }
    {
        is_layer(self.layer)
            && whole::in_range(self.y)
            && whole::in_range(self.from)
            && whole::in_range(self.to)
    }

    // Whether its from equals its to.
    #[tactic(auto, using(basic_laws::specs::Signed::eq_bits), unfolding(meaning::specs::Edges::flat))]
    pub fn is_flat(self) -> bool
        ensures { result ≡ flat (edge_of self) }
    {
        self.from == self.to
    }

    // The edge in steps.
    pub fn in_steps(self) -> Steps
        requires { sound_edge 7 limit (edge_of self) ≡ true }
        ensures layer { result.layer ≡ nat_abs self.layer }
        ensures low { result.layer < 8 }
        ensures y { result.y ≡ lift limit self.y }
        ensures from { result.from ≡ lift limit self.from }
        ensures to { result.to ≡ lift limit self.to }
    {
        Steps {
            layer: self.layer as u8,
            y: lifted(self.y),
            from: lifted(self.from),
            to: lifted(self.to),
        }
    }
}
