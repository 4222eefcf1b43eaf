// Fixed-point numbers: signed 32-bit counts of millionths, as a record or a colour component has them. How they are limited and rounded, how they stand in
// lists, and their floats.
#![tactic(auto)]

mod codes;
mod float;
mod limits;
mod refusals;
mod rounding;
mod table;
mod values;

pub use codes::is_device;
pub use float::float_of;
pub use limits::{is_exponent, is_gamma, is_outside, limit, unit_part};
pub use refusals::{Refusal, Refused};
pub use rounding::{
    Index, index_of, lowered, over_one, palette_value, part_way, raised, tint_power, tint_value,
};
pub use values::{Colour, small, small_at, start, value_at};

// How many values a colour's steps act on.
pub const VALUES: usize = 8;

// The most components of a plain space, which are CMYK's.
pub const WIDEST: usize = 4;

// The most tokens of a program, braces counted.
pub const TOKENS: usize = 400;

// The most words of its flat form: two for each token, and none for the outer pair.
pub const FLAT: usize = 2 * (TOKENS - 2);

// The most words of a recipe: the count, step 2 with 256 rows, step 13 with the most words of a program, CalRGB's limits and closing step.
pub const LONGEST: usize = 1 + (3 + VALUES * 256) + (4 + FLAT) + (3 * 4 + 13);

// The greatest gamma, in tenths.
pub const TENTHS: u32 = 40;

// The most blocks of a page.
pub const BLOCKS: u32 = 128;
