// The components of a space, and the ends of their ranges.
ghost use Rattle.std.specs.Prelude.{◌≡◌, List, ℕ, ◌≤◌, pos, set, replicate};
ghost use Rattle.fixed.specs.Values.{places};
ghost use Rattle.space.specs.Spaces.{count_of, limit_count};
ghost use Rattle.space.specs.Pages.{space_at};
ghost use Rattle.space.specs.Levels.{plain_in, no_ranges, space_in, is_lab, Ends};

use crate::nesting::{Level, level_at};
use cie::Closing;
use fixed::VALUES;
use form::taken;
use record::Ranges;

// How many components a plain space has, by its closing step.
pub fn plain_count(c: Closing) -> u32
    ensures is { result ≡ count_of (plain_in c no_ranges) }
    ensures small { result ≤ places }
{
    match c {
        Closing::Nothing => 0,
        Closing::Gray | Closing::CalGray(_) | Closing::NoMark | Closing::EveryInk => 1,
        Closing::Rgb | Closing::CalRgb(_) | Closing::Lab(_) => 3,
        Closing::Cmyk => 4,
    }
}

// How many of a plain space's components are limited: all, but none where there is no mark.
pub fn limit_count(c: Closing) -> u32
    ensures is { result ≡ limit_count (plain_in c no_ranges) }
    ensures small { result ≤ places }
{
    match c {
        Closing::NoMark => 0,
        _ => plain_count(c),
    }
}

// How many a level has, 0 where there is no space.
// Kept: 0 as in the definition `count_of`: recipes and palettes are as long as that count says, of no space too.
#[tactic(auto, using(crate::proofs::Ends::whatever), unfolding(crate::specs::Levels::space_in))]
pub fn count(l: Level) -> u32
    ensures is { (page : List ℕ) → result ≡ count_of (space_in page l) }
    ensures small { result ≤ places }
{
    match l {
        Level::Plain(c, _) => plain_count(c),
        Level::Blank(tints) | Level::Program { tints, .. } => taken(tints),
        Level::Separation(_) | Level::Indexed { .. } => 1,
    }
}

// How many the space at a number has, 0 where the number is no space's.
// Kept: 0 as `count` has it.
pub fn components(page: &[u8], n: u32) -> u32
    ensures is { result ≡ count_of (space_at page.now n) }
    ensures small { result ≤ places }
{
    count(level_at(page, n))
}

// The ends of the ranges of a space's components: each list has a place for every value of a colour.
#[derive(Clone, Copy)]
pub struct Bounds {
    pub lo: [i32; VALUES],
    pub hi: [i32; VALUES],
}

// Those of a space all of whose components are 0 to 1.
fn unit_bounds() -> Bounds
    ensures lows { result.lo ≡ replicate places (pos 0) }
    ensures highs { result.hi ≡ replicate places (pos 1000000) }
{
    Bounds {
        lo: [0; VALUES],
        hi: [1000000; VALUES],
    }
}

// Whether a closing step is Lab's.
fn is_lab(c: Closing) -> bool
    ensures { result ≡ is_lab c }
{
    matches!(c, Closing::Lab(_))
}

// An end for the first component, one for the second, and one for all others.
fn ends_of(first: i32, second: i32, others: i32) -> [i32; VALUES]
    ensures { result ≡ set (set (replicate places others) 0 first) 1 second }
{
    let mut ends = [others; VALUES];
    ends[0] = first;
    ends[1] = second;
    ends
}

// Those of a plain space: a Lab's by its record.
pub fn plain_bounds(c: Closing, q: Ranges) -> Bounds
    ensures { Ends (plain_in c q) result.lo result.hi }
{
    if is_lab(c) {
        return Bounds {
            lo: ends_of(0, q.amin, q.bmin),
            hi: ends_of(100000000, q.amax, q.bmax),
        };
    }
    unit_bounds()
}

// Those of a level's space.
pub fn bounds_of(l: Level) -> Bounds
    ensures { (page : List ℕ) → Ends (space_in page l) result.lo result.hi }
{
    match l {
        Level::Plain(c, q) => plain_bounds(c, q),
        _ => unit_bounds(),
    }
}
