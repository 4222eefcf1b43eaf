// Taking a number to the nearest in a range, and the house limits on gammas and exponents.
ghost use Rattle.std.specs.Prelude.{◌≡◌, ◌≤◌, pos, nat_abs};
ghost use Rattle.fixed.specs.Numbers.{limited, outside, exponent_supported, gamma_supported};

use crate::TENTHS;

// The nearest to v in lo..hi.
// Kept: `clamp` asks that lo is not above hi, which no caller of `limit` owes, and `min` with `max` answers otherwise there.
#[tactic(auto, unfolding(crate::specs::Numbers::limited))]
pub fn limit(v: i32, lo: i32, hi: i32) -> i32
    ensures { result ≡ limited lo hi v }
{
    if v < lo {
        lo
    } else if hi < v {
        hi
    } else {
        v
    }
}

// Whether limiting v to lo..hi moves it.
#[tactic(auto, unfolding(crate::specs::Numbers::outside))]
pub fn is_outside(v: i32, lo: i32, hi: i32) -> bool
    ensures { result ≡ outside lo hi v }
{
    v < lo || hi < v
}

// v limited to 0..1, which is not negative: a tint.
#[tactic(auto, unfolding(crate::specs::Numbers::limited))]
pub fn unit_part(v: i32) -> u32
    ensures is { result ≡ nat_abs (limited (pos 0) (pos 1000000) v) }
    ensures small { result ≤ 1000000 }
{
    limit(v, 0, 1000000).unsigned_abs()
}

// The greatest exponent.
const GREATEST: u32 = 4;

// Whether an exponent is within the house limit.
pub fn is_exponent(e: u32) -> bool
    ensures { result ≡ exponent_supported e }
{
    (1..=GREATEST).contains(&e)
}

// Whether a gamma, in millionths, is a whole count of tenths within the house limit.
#[tactic(auto, unfolding(crate::specs::Numbers::gamma_supported))]
pub fn is_gamma(v: i32) -> bool
    ensures { result ≡ gamma_supported v }
{
    let n = v.unsigned_abs();
    0 <= v && n % 100000 == 0 && (1..=TENTHS).contains(&(n / 100000))
}
