// Tests of a recipe's words. A word past the end is 0.
ghost use Rattle.std.specs.Prelude.{◌≡◌};
ghost use Rattle.std.specs.Int.Signed.{lt_z};
ghost use Rattle.fixed.specs.Numbers.{gamma_supported};
ghost use Rattle.fixed.specs.Values.{value, fills, makes};

use fixed::{VALUES, WIDEST, is_gamma, value_at};

// Whether a is below b.
pub fn is_below(a: i32, b: i32) -> bool
    ensures { result ≡ lt_z a b }
{
    a < b
}

// Whether word i is a gamma within the house limit.
pub fn gamma_at(l: &[i32], i: usize) -> bool
    ensures { result ≡ gamma_supported (value l.now i) }
{
    is_gamma(value_at(l, i))
}

// Whether a row may fill m values, or a recipe begin from m components.
pub fn is_count(m: u32) -> bool
    ensures { result ≡ fills m }
{
    1 <= m && m <= VALUES as u32
}

// Whether a tint may make m components.
pub fn is_made(m: u32) -> bool
    ensures { result ≡ makes m }
{
    1 <= m && m <= WIDEST as u32
}
