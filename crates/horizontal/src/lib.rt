// A horizontal record by ranks, as one word: its y in steps, and the ranks of its from and its to among the distinct x.
#![tactic(auto)]

ghost use Rattle.std.specs.Prelude.{◌≡◌, ◌≤◌, ◌<◌};
ghost use Rattle.horizontal.specs.Words.{height_of, from_of, to_of, packed};

pub fn word(y: u32, from: usize, to: usize) -> u64
    requires { (y ≤ 2147483648) × (from < 8192) × (to < 8192) }
    ensures { result ≡ packed y from to }
{
    u64::from(y) * 67108864 + from as u64 * 8192 + to as u64
}

pub fn height(w: u64) -> u32
    requires { height_of w ≤ 2147483648 }
    ensures { result ≡ height_of w }
{
    (w / 67108864) as u32
}

pub fn rank_from(w: u64) -> usize
    ensures { (result ≡ from_of w) × (result < 8192) }
{
    (w / 8192 % 8192) as usize
}

// One function with `words::place`, which has the same sum, would be no plainer: the words are of two makes, and one name for both would tell of neither.
pub fn rank_to(w: u64) -> usize
    ensures { (result ≡ to_of w) × (result < 8192) }
{
    (w % 8192) as usize
}
