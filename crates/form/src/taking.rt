// How many values a program takes.
ghost use Rattle.std.specs.Prelude.{◌≡◌, ◌≤◌};
ghost use Rattle.fixed.specs.Values.{places};
ghost use Rattle.form.specs.Steps.{nearest_count, taken_by};

use crate::Tints;
use fixed::VALUES;

// A count of names, taken to the nearest of 1 to 8.
pub fn nearest_count(n: u32) -> u32
    ensures is { result ≡ nearest_count n }
    ensures small { (1 ≤ result) × (result ≤ places) }
{
    if n <= 1 {
        return 1;
    }
    if n <= (VALUES as u32) {
        return n;
    }
    VALUES as u32
}

// How many values a program takes.
pub fn taken(i: Tints) -> u32
    ensures is { result ≡ taken_by i }
    ensures small { (1 ≤ result) × (result ≤ places) }
{
    match i {
        Tints::One => 1,
        Tints::Inks(n) => nearest_count(n),
    }
}
