// The record of what C has of it: 20 numbers and 504 bytes.
ghost use Rattle.std.specs.Prelude.{◌≡◌, List, ℤ};
ghost use Rattle.c_records.specs.Records.{named_count, zero_from, record_like, one_of, two_of, triple_of, ranges_of, four_of, gray_of, rgb_of, lab_of, ink_of, body_of, record_of};

use fixed::{small_at, value_at};
use record::{Body, CalGray, CalRgb, Four, Lab, Ranges, Record, Separation, Triple};

// How many numbers a body of that kind names, with the own number and the kind.
// Kept: the kind is a number, as the C interface has it: any number may come.
#[tactic(auto, unfolding(crate::specs::Records::body_of))]
fn named_count(kind: u32) -> usize
    ensures { (v : List ℤ) → result ≡ named_count (body_of kind v) }
{
    match kind {
        1 => 9,
        2 => 20,
        3 => 12,
        4 | 8 => 4,
        5 => 13,
        _ => 2,
    }
}

// Whether the numbers from `from` on are zero.
fn is_zero_from(v: &[i32], from: usize) -> bool
    ensures { result ≡ zero_from v.now from }
{
    for k in from..20 {
        if small_at(v, k) != 0 {
            return false;
        }
    }
    true
}

// Whether the numbers make a record: a known kind, and zeros where its body names no number.
pub fn is_record_like(v: &[i32]) -> bool
    ensures { result ≡ record_like v.now }
{
    let kind = small_at(v, 1);
    kind <= 8 && is_zero_from(v, named_count(kind))
}

// Number k in a field of one byte: as FF where that has no room for it.
fn one_of(v: &[i32], k: usize) -> u8
    ensures { result ≡ one_of v.now k }
{
    u8::try_from(small_at(v, k)).unwrap_or(u8::MAX)
}

// Number k in a field of two bytes: as FFFF where that has no room for it.
fn two_of(v: &[i32], k: usize) -> u16
    ensures { result ≡ two_of v.now k }
{
    u16::try_from(small_at(v, k)).unwrap_or(u16::MAX)
}

fn triple_of(v: &[i32], i: usize, j: usize, k: usize) -> Triple
    ensures { result ≡ triple_of v.now i j k }
{
    Triple {
        x: value_at(v, i),
        y: value_at(v, j),
        z: value_at(v, k),
    }
}

fn four_of(v: &[i32], i: usize, j: usize, k: usize, l: usize) -> Four
    ensures { result ≡ four_of v.now i j k l }
{
    Four {
        a: value_at(v, i),
        b: value_at(v, j),
        c: value_at(v, k),
        d: value_at(v, l),
    }
}

// The ranges are four numbers.
fn ranges_of(v: &[i32]) -> Ranges
    ensures { result ≡ ranges_of v.now }
{
    Ranges::from(four_of(v, 8, 9, 10, 11))
}

fn gray_of(v: &[i32]) -> CalGray
    ensures { result ≡ gray_of v.now }
{
    CalGray {
        white: triple_of(v, 2, 3, 4),
        black: triple_of(v, 5, 6, 7),
        gamma: value_at(v, 8),
    }
}

fn rgb_of(v: &[i32]) -> CalRgb
    ensures { result ≡ rgb_of v.now }
{
    CalRgb {
        white: triple_of(v, 2, 3, 4),
        black: triple_of(v, 5, 6, 7),
        gammas: triple_of(v, 8, 9, 10),
        a: triple_of(v, 11, 12, 13),
        b: triple_of(v, 14, 15, 16),
        c: triple_of(v, 17, 18, 19),
    }
}

fn lab_of(v: &[i32]) -> Lab
    ensures { result ≡ lab_of v.now }
{
    Lab {
        white: triple_of(v, 2, 3, 4),
        black: triple_of(v, 5, 6, 7),
        range: ranges_of(v),
    }
}

// Alternate 2, count of names 3.
fn device_n_of(v: &[i32]) -> Body
    ensures { result ≡ Body.DeviceN (two_of v.now 2) (one_of v.now 3) }
{
    Body::DeviceN {
        alternate: two_of(v, 2),
        count: one_of(v, 3),
    }
}

fn indexed_of(v: &[i32]) -> Body
    ensures { result ≡ Body.Indexed (two_of v.now 2) (two_of v.now 3) }
{
    Body::Indexed {
        base: two_of(v, 2),
        hival: two_of(v, 3),
    }
}

fn ink_of(v: &[i32]) -> Separation
    ensures { result ≡ ink_of v.now }
{
    Separation {
        alternate: two_of(v, 2),
        exponent: one_of(v, 3),
        name_len: one_of(v, 4),
        c0: four_of(v, 5, 6, 7, 8),
        c1: four_of(v, 9, 10, 11, 12),
    }
}

// Kept: the kind is a number, as the C interface has it: an unknown one is read as free.
fn body_of(kind: u32, v: &[i32]) -> Body
    ensures { result ≡ body_of kind v.now }
{
    match kind {
        1 => Body::CalGray(gray_of(v)),
        2 => Body::CalRgb(rgb_of(v)),
        3 => Body::Lab(lab_of(v)),
        4 => indexed_of(v),
        5 => Body::Separation(ink_of(v)),
        6 => Body::Palette,
        7 => Body::Program,
        8 => device_n_of(v),
        _ => Body::Free,
    }
}

// The record of the numbers v and the bytes s.
pub fn record_of(v: &[i32], s: &[u8; 504]) -> Record
    ensures { result ≡ record_of v.now s.now }
{
    Record {
        own: two_of(v, 0),
        body: body_of(small_at(v, 1), v),
        bytes: *s,
    }
}
