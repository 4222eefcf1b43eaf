// Numbers, a regular character at a time (ISO 32000-1, 7.3.3), and what they come to in millionths.
ghost use Rattle.std.specs.Prelude.{◌≡◌, true, ◌&&◌, cond, ◌+◌, ◌*◌, ◌/◌, ◌<◌, ◌≤◌, leb};
ghost use Rattle.lexical.specs.Numbers.{after_digit, after_point, after_sign, after_other, pointed, numeric, none, with_digit, with_other, with_figure, scale_of, millionths, fits, value_of, whole_in, exactly};

use crate::chars::is_decimal;
use crate::types::{Number, Part};

// The most millionths that 32 bits hold, which only a number below zero may have.
const LARGEST: u64 = 1 << 31;

// One, in millionths.
const MILLION: u64 = 1_000_000;

// With one digit more.
fn after_digit(p: Part) -> Part
    ensures { result ≡ after_digit p }
{
    match p {
        Part::Empty | Part::Sign | Part::Digits => Part::Digits,
        Part::Point | Part::Decimals => Part::Decimals,
        Part::Keyword => Part::Keyword,
    }
}

// With a point.
fn after_point(p: Part) -> Part
    ensures { result ≡ after_point p }
{
    match p {
        Part::Empty | Part::Sign => Part::Point,
        Part::Digits => Part::Decimals,
        Part::Point | Part::Decimals | Part::Keyword => Part::Keyword,
    }
}

// With a sign.
fn after_sign(p: Part) -> Part
    ensures { result ≡ after_sign p }
{
    match p {
        Part::Empty => Part::Sign,
        _ => Part::Keyword,
    }
}

// With a regular character that is no digit.
#[tactic(auto, unfolding(crate::specs::Numbers::after_other))]
fn after_other(p: Part, b: u8) -> Part
    ensures { result ≡ after_other p b }
{
    match b {
        b'.' => after_point(p),
        b'+' | b'-' => after_sign(p),
        _ => Part::Keyword,
    }
}

// Whether the point is passed.
fn is_pointed(p: Part) -> bool
    ensures { result ≡ pointed p }
{
    matches!(p, Part::Point | Part::Decimals)
}

// Whether a token of regular characters is a number.
pub fn is_number(p: Part) -> bool
    ensures { result ≡ numeric p }
{
    matches!(p, Part::Digits | Part::Decimals)
}

// No number yet.
pub fn no_number() -> Number
    ensures { result ≡ none }
{
    Number {
        part: Part::Empty,
        minus: false,
        fine: false,
        raw: 0,
        after: 0,
    }
}

// The digits as one number, with one more up to the sixth after the point.
fn digit_raw(after: u32, raw: u64, d: u8) -> u64
    requires { d ≤ 9 }
    ensures { result ≡ cond (leb after 5 && leb raw 2147483648) (raw * 10 + d) raw }
{
    if after <= 5 && raw <= LARGEST {
        raw * 10 + d as u64
    } else {
        raw
    }
}

// How many digits stand after the point, with one more, to seven.
fn digit_after(past: bool, after: u32) -> u32
    ensures { result ≡ cond (past && leb after 6) (after + 1) after }
{
    if past && after <= 6 { after + 1 } else { after }
}

// With one digit more.
#[tactic(auto, unfolding(crate::specs::Numbers::with_digit))]
fn with_digit(n: Number, d: u8) -> Number
    requires { d ≤ 9 }
    ensures { result ≡ with_digit n d }
{
    Number {
        part: after_digit(n.part),
        minus: n.minus,
        fine: n.fine || 6 <= n.after && d != 0,
        raw: digit_raw(n.after, n.raw, d),
        after: digit_after(is_pointed(n.part), n.after),
    }
}

// With a regular character more that is no digit.
#[tactic(auto, unfolding(crate::specs::Numbers::with_other))]
fn with_other(n: Number, b: u8) -> Number
    ensures { result ≡ with_other n b }
{
    Number {
        part: after_other(n.part, b),
        minus: n.minus || b == b'-',
        ..n
    }
}

// The number with one regular character more.
#[tactic(auto, unfolding(crate::specs::Numbers::with_figure))]
pub fn with_figure(n: Number, b: u8) -> Number
    ensures { result ≡ with_figure n b }
{
    if is_decimal(b) {
        with_digit(n, b - b'0')
    } else {
        with_other(n, b)
    }
}

// The power of ten that makes a number with so many digits after the point whole millionths.
#[tactic(auto, unfolding(crate::specs::Numbers::scale_of))]
fn scale(after: u32) -> u64
    ensures is { result ≡ scale_of after }
    ensures small { (1 ≤ result) × (result ≤ 1000000) }
{
    match after {
        0 => 1000000,
        1 => 100000,
        2 => 10000,
        3 => 1000,
        4 => 100,
        5 => 10,
        _ => 1,
    }
}

// Whether a number has a value in millionths: neither too fine nor too large.
#[tactic(auto, unfolding(crate::specs::Numbers::fits))]
pub fn number_fits(n: Number) -> bool
    ensures { result ≡ fits n }
{
    let s = scale(n.after);
    if LARGEST < n.raw {
        return false;
    }
    let m = n.raw * s;
    n.after <= 6 && m <= if n.minus { LARGEST } else { LARGEST - 1 }
}

// The millionths of a number that fits.
#[tactic(auto, unfolding(crate::specs::Numbers::fits))]
fn millions(n: Number) -> u64
    requires { fits n ≡ true }
    ensures is { result ≡ millionths n }
    ensures small { result ≤ 2147483648 }
{
    n.raw * scale(n.after)
}

// Whether a number that fits is whole, of lo to hi.
#[tactic(auto, unfolding(crate::specs::Numbers::whole_in))]
pub fn is_whole(n: Number, lo: u32, hi: u32) -> bool
    requires { fits n ≡ true }
    ensures { result ≡ whole_in n lo hi }
{
    let m = millions(n);
    let q = m / MILLION;
    m % MILLION == 0 && lo as u64 <= q && q <= hi as u64 && (!n.minus || m == 0)
}

// The whole part of a number that fits.
pub fn whole(n: Number) -> u32
    requires { fits n ≡ true }
    ensures { result ≡ millionths n / 1000000 }
{
    (millions(n) / MILLION) as u32
}

// The value of a number that fits.
#[tactic(auto, unfolding(crate::specs::Numbers::value_of, crate::specs::Numbers::fits))]
pub fn value_of(n: Number) -> i32
    requires { fits n ≡ true }
    ensures { result ≡ value_of n }
{
    let m = millions(n) as i64;
    if n.minus { -m as i32 } else { m as i32 }
}

// Whether a number is the whole number v, however fine it is written.
#[tactic(auto, unfolding(crate::specs::Numbers::exactly))]
pub fn is_exactly(n: Number, v: u32) -> bool
    ensures { result ≡ exactly n v }
{
    if n.fine || LARGEST < n.raw {
        return false;
    }
    n.raw * scale(n.after) == v as u64 * MILLION && (!n.minus || v == 0)
}
