// A test of i32 numbers, and their way to natural numbers and back.
#![tactic(auto)]

ghost use Rattle.std.specs.Prelude.{◌≡◌};
ghost use Rattle.basic_laws.specs.Signed.{key_of, unkey_of};
ghost use Rattle.meaning.specs.Numbers.{limit, in_range};

use scanline::Scanline;

// A cast, here and in the crates above, loses nothing, which each is proved of. A `try_from` would be no plainer: it would answer a refusal that cannot come.

// 2^31, half of what 32 bits hold.
pub const HALF: i64 = 2147483648;

// The greatest coordinate.
const GREATEST: i32 = Scanline::LIMIT as i32;

// The least coordinate.
const LEAST: i32 = -GREATEST;

// The number moved up by 2^31.
pub fn key(z: i32) -> u32
    ensures { result ≡ key_of z }
{
    (i64::from(z) + HALF) as u32
}

// The number moved down by 2^31: the way back from `key`.
pub fn unkey(n: u32) -> i32
    ensures { result ≡ unkey_of n }
{
    (i64::from(n) - HALF) as i32
}

// Whether z is a coordinate.
pub fn in_range(z: i32) -> bool
    ensures { result ≡ in_range limit z }
{
    (LEAST..=GREATEST).contains(&z)
}
