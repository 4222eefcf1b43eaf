// Half-up roundings: an index, a palette value, a tint.
//
// Sums and products are over numbers raised by 2^31, which are never negative.
ghost use Rattle.std.specs.Prelude.{◌≡◌, pos, ◌<◌, ◌≤◌, ◌^◌};
ghost use Rattle.std.proofs.Math.IntN.{sub_ℕ};
ghost use Rattle.fixed.specs.Numbers.{part_way, palette_value, OverOne, tint_power, tint_value, round_index, index_outside};

use crate::table::OVER_ONE;

// v + 2^31.
pub fn raised(v: i32) -> u64
    ensures { (result < 2 ^ 32) × (v ≡ sub_ℕ result (2 ^ 31)) }
{
    (v as i64 + 2147483648) as u64
}

// u - 2^31.
pub fn lowered(u: u64) -> i32
    requires { u < 2 ^ 32 }
    ensures { result ≡ sub_ℕ u (2 ^ 31) }
{
    (u as i64 - 2147483648) as i32
}

// x + q (y - x) / d, rounded half up. y may be below x.
pub fn part_way(x: i32, y: i32, q: u64, d: u64) -> i32
    requires { (q ≤ d) × (0 < d) × (d ≤ 1000000) }
    ensures { result ≡ part_way d q x y }
{
    let a = raised(x);
    let b = raised(y);
    let n = (d - q) * a + q * b;
    lowered((2 * n + d) / (2 * d))
}

// The table of the values over 0..1 of all palette bytes, in millionths. It is made anew by each call: make it once for a palette, and lend it.
pub fn over_one() -> [u32; 256]
    ensures { OverOne result }
{
    OVER_ONE
}

// The value of a palette byte b in the range lo..hi: nearly every palette is over 0..1. `table` has the values over that range, of all bytes or of none, and
// spares the division.
pub fn palette_value(table: &[u32], b: u32, lo: i32, hi: i32) -> i32
    requires { (b ≤ 255) × OverOne table.now }
    ensures { result ≡ palette_value b lo hi }
{
    match table.get(b as usize) {
        Some(&value) if lo == 0 && hi == 1000000 => value as i32,
        _ => part_way(lo, hi, b as u64, 255),
    }
}

// The tint x, of 0..1 in millionths, to an exponent of whole units.
pub fn tint_power(x: u32, exponent: u32) -> u32
    requires { x ≤ 1000000 }
    ensures is { result ≡ tint_power x exponent }
    ensures small { result ≤ 1000000 }
{
    let tint = x as u64;
    let mut q = tint;
    for _ in 1..exponent {
        q = (2 * (q * tint) + 1000000) / 2000000;
    }
    q as u32
}

// A component of the alternate space: q millionths of the way from c0 to c1.
pub fn tint_value(c0: i32, c1: i32, q: u32) -> i32
    requires { q ≤ 1000000 }
    ensures { result ≡ tint_value c0 c1 q }
{
    part_way(c0, c1, q as u64, 1000000)
}

// Where an index lies among the rows 0..hival.
// Kept: the flag is a part of the answer, and the row is there with either.
#[derive(Clone, Copy, Debug, PartialEq, Eq)]
pub struct Index {
    // The row that it picks: the nearest of them.
    pub row: u32,
    // Whether it lay outside, so that it had to be moved to that row. Rounding alone moves nothing.
    pub outside: bool,
}

// v millionths to the nearest whole number, up at a half, among the rows 0..hival. The number is raised by 2148, so that it is never negative.
pub fn index_of(v: i32, hival: u32) -> Index
    ensures { (pos result.row ≡ round_index v hival) × (result.outside ≡ index_outside v hival) }
{
    let u = raised(v);
    let n = (u + 1016352) / 1000000;
    match n.checked_sub(2148) {
        None => Index {
            row: 0,
            outside: true,
        },
        Some(row) if row <= hival as u64 => Index {
            row: row as u32,
            outside: false,
        },
        Some(_) => Index {
            row: hival,
            outside: true,
        },
    }
}
