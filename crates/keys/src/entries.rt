// The entries of a dictionary.
// Kept: a kind and a key are numbers, since `states::load` takes any words of its caller for a state, whatever kind and key they hold.
ghost use Rattle.std.specs.Prelude.{◌≡◌, false, ◌+◌, ◌≤◌, ◌^◌, length};
ghost use Rattle.fixed.specs.Refusals.{refused_with};
ghost use Rattle.keys.specs.Entries.{key_of, length_of, met_in, complete, number_fault, place_of, defaults};

use fixed::Refusal;
use lexical::Number;

// How many values a dictionary has.
pub const VALUES: usize = 30;

const ONE: i32 = 1_000_000;

const HUNDRED: i32 = 100_000_000;

// The defaults: white, black, gammas, the matrix, the range, C0 and C1.
const DEFAULTS: [i32; VALUES] = [
    0, 0, 0, 0, 0, 0, ONE, ONE, ONE, ONE, 0, 0, 0, ONE, 0, 0, 0, ONE, -HUNDRED, HUNDRED, -HUNDRED,
    HUNDRED, 0, 0, 0, 0, ONE, 0, 0, 0,
];

// Whether a dictionary of a kind has a key.
#[tactic(auto, unfolding(crate::specs::Entries::key_of))]
pub fn has_key(kind: u8, key: u32) -> bool
    ensures { result ≡ key_of kind key }
{
    match kind {
        1 => matches!(key, 1..=3),
        2 => matches!(key, 1..=4),
        3 => matches!(key, 1 | 2 | 5),
        _ => matches!(key, 6..=10),
    }
}

// How many numbers in brackets a value is, or 0.
// Kept: 0 for a value with no brackets, as in the definition; `take_item` compares with it.
#[tactic(auto, unfolding(crate::specs::Entries::length_of))]
pub fn length_of(kind: u8, m: u8, key: u32) -> u32
    ensures { result ≡ length_of kind m key }
{
    match key {
        0..=2 => 3,
        3 if kind == 1 => 0,
        3 => 3,
        4 => 9,
        5 => 4,
        7 => 2,
        8 | 9 => u32::from(m),
        _ => 0,
    }
}

// Whether a key was met.
#[tactic(auto, unfolding(crate::specs::Entries::met_in))]
pub fn is_met(mask: u32, key: u32) -> bool
    requires { key ≤ 10 }
    ensures { result ≡ met_in mask key }
{
    (mask >> key) % 2 == 1
}

// The mask with one key more, which was not met.
pub fn with_key(mask: u32, key: u32) -> u32
    requires { (key ≤ 10) × (met_in mask key ≡ false) }
    ensures { result ≡ mask + 2 ^ key }
{
    mask + (1 << key)
}

// Whether no entry is missing.
#[tactic(auto, unfolding(crate::specs::Entries::complete))]
pub fn is_complete(kind: u8, m: u8, mask: u32) -> bool
    ensures { result ≡ complete kind m mask }
{
    if kind <= 3 {
        return is_met(mask, 1);
    }
    is_met(mask, 6)
        && is_met(mask, 7)
        && is_met(mask, 10)
        && (m == 1 || is_met(mask, 8) && is_met(mask, 9))
}

// Whether a number may stand at its place in an entry.
#[tactic(auto, unfolding(crate::specs::Entries::number_fault))]
pub fn number_fault(key: u32, index: u32, n: Number) -> Result<(), Refusal>
    ensures { refused_with result ≡ number_fault key index n }
{
    match key {
        6 if !lexical::is_exactly(n, 2) => Err(Refusal::Syntax),
        7 if !lexical::is_exactly(n, index) => Err(Refusal::Syntax),
        _ if !lexical::number_fits(n) => Err(Refusal::TextNumber),
        10 if !lexical::is_whole(n, 1, 4) => Err(Refusal::HouseLimit),
        _ => Ok(()),
    }
}

// Where the first number of an entry stands among the values.
#[tactic(auto, unfolding(crate::specs::Entries::place_of))]
pub fn place_of(key: u32) -> usize
    ensures is { result ≡ place_of key }
    ensures small { result ≤ 30 }
{
    match key {
        1 => 0,
        2 => 3,
        3 => 6,
        4 => 9,
        5 => 18,
        8 => 22,
        9 => 26,
        _ => VALUES,
    }
}

// Puts every value at its default.
#[tactic(auto, unfolding(crate::specs::Entries::defaults))]
pub fn reset(values: &mut [i32])
    requires { length values.old ≡ 30 }
    ensures { values.new ≡ defaults }
{
    values.copy_from_slice(&DEFAULTS);
}
