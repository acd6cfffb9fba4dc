// What one horizontal record adds to the area: y times (to - from).
#![tactic(auto)]

ghost use Rattle.std.specs.Prelude.{◌≡◌, ◌-◌, ◌*◌, not, [], ◌∷◌};
ghost use Rattle.meaning.specs.Cells.{turn};
ghost use Rattle.meaning.specs.Records.{run};
ghost use Rattle.grid_laws.specs.Plane.{record_at};
ghost use Rattle.weights.specs.Weights.{Weighed, WeightOk};

// The size of one record's weight.
fn size(y: u32, a: u32, b: u32) -> u64
    requires { WeightOk y a b }
    ensures { result ≡ y * (b - a) }
{
    u64::from(y) * u64::from(b - a)
}

// The sum with the stretch from a to b at y: a stretch that came inside goes west, so its weight is negative. The sum wraps on purpose.
//
// No plainer: `inside` is a field of the stretch, and a closure in its place would only name one of two signs.
pub fn weighed(sum: u64, y: u32, a: u32, b: u32, inside: bool) -> u64
    requires { WeightOk y a b }
    ensures { Weighed sum (record_at 0 y (run a b (turn (not inside) inside)) ∷ []) result }
{
    let w = size(y, a, b);
    if inside {
        sum.wrapping_sub(w)
    } else {
        sum.wrapping_add(w)
    }
}
