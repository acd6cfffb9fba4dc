// The edges of a ring list.
#![tactic(auto)]

ghost use Rattle.std.specs.Prelude.{◌≡◌, ◌+◌, ◌≤◌, ◌<◌};
ghost use Rattle.std.proofs.lemmas.List.Edits.{sets};
ghost use Rattle.meaning.specs.Rings.{ring_edges};
ghost use Rattle.meaning.specs.Faults.{Edged};
ghost use Rattle.answers.specs.Told.{told};
ghost use Rattle.ringedges.specs.Ended.{edge_at, ended};
ghost use Rattle.ringedges.specs.Begun.{Edges_begun, edges_laws};

use answers::Refusal;
use rings::{Due, State};
use ringwalk::Made;

// Writes an edge at n, as far as there is room, and returns the place after it.
//
// A rule of the project: a place beside the buffer, see `numbers::put`.
#[tactic(auto, unfolding(crate::specs::Ended::edge_at))]
fn put_edge(out: &mut [i32], n: usize, layer: u64, y: u64, from: u64, to: u64) -> usize
    requires { (layer ≤ 7) × ((y < 4294967296) × ((from < 4294967296) × ((to < 4294967296) × (n ≤ 18446744073709551611)))) }
    ensures { (result ≡ n + 4) × (out.new ≡ sets out.old n (edge_at layer y from to)) }
{
    // For speed one test finds that none of the four has room, and one that all have.
    if out.len() <= n {
        return n + 4;
    }
    if 4 <= out.len() - n {
        out[n] = whole::unkey((layer + rings::HALF) as u32);
        out[n + 1] = whole::unkey(y as u32);
        out[n + 2] = whole::unkey(from as u32);
        out[n + 3] = whole::unkey(to as u32);
        return n + 4;
    }
    rings::put(out, n, layer + rings::HALF);
    rings::put(out, n + 1, y);
    rings::put(out, n + 2, from);
    rings::put(out, n + 3, to);
    n + 4
}

// The numbers of edges, as what is made of a ring list.
struct Edges;

impl Made for Edges {
    type Item = i32;

    ghost begins = { Edges_begun };

    ghost adds = { ended };

    ghost make = { ring_edges };

    ghost laws = { edges_laws };

    fn begin(_: &mut [i32]) -> usize {
        0
    }

    // Writes the edge that the due number v ends, if it ends one.
    #[tactic(auto, unfolding(crate::specs::Ended::ended, crate::specs::Ended::edge_at))]
    fn add(out: &mut [i32], n: usize, s: State, v: u64) -> usize {
        match s.due {
            Due::Layer => n,
            Due::Count => n,
            Due::X => {
                if s.fresh {
                    return n;
                }
                put_edge(out, n, s.layer, s.py, s.px, v)
            }
            Due::Y => {
                if s.more == 0 {
                    return put_edge(out, n, s.layer, v, s.px, s.fx);
                }
                n
            }
        }
    }
}

// The edges of a ring list: how many numbers were written, or the refusal.
#[tactic(auto, unfolding(meaning::specs::Faults::Edged))]
pub fn edges_of(rings: &[i32], edges: &mut [i32]) -> Result<u64, Refusal>
    ensures { Edged rings.now edges.old (told result, edges.new) }
{
    ringwalk::make::<Edges>(rings, edges)
}
