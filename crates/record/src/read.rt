// Reading a record: what stands at the places of block n. Every block says something; what is refused is for `shape` and `rules`.
ghost use Rattle.std.specs.Prelude.{◌≡◌, ◌+◌, ◌-◌, ◌<◌, ◌≤◌, ◌++◌, length, drop, replicate};
ghost use Rattle.layout.specs.Field.{padded};
ghost use Rattle.fixed.specs.Bytes.{block_at, byte_at, two_at};
ghost use Rattle.record.specs.Reading.{kind_at, triple_at, ranges_at, four_numbers_at, gray_at, rgb_at, lab_at, separation_at, own_at, body_at, run_at, names_at, bytes_by, palette_at, record_at};
ghost use Rattle.record.specs.Layout.{room, entries_of};
ghost use Rattle.record.specs.Rules.{is_palette, is_program};

use crate::types::{
    Body, CalGray, CalRgb, Four, Lab, NAME_FROM, NAMES, ROOM, Ranges, Record, Separation, Triple,
};
use octets::{byte_at, byte_in, number_in, two_at, two_in};

// These read the part of a page from byte `start` on, where a block stands whole.
fn triple_in(page: &[u8], start: usize, at: usize) -> Triple
    requires { start + at + 12 ≤ length page.now }
    ensures { result ≡ triple_at (drop start page.now) at }
{
    Triple {
        x: number_in(page, start, at),
        y: number_in(page, start, at + 4),
        z: number_in(page, start, at + 8),
    }
}

fn four_in(page: &[u8], start: usize, at: usize) -> Four
    requires { start + at + 16 ≤ length page.now }
    ensures { result ≡ four_numbers_at (drop start page.now) at }
{
    Four {
        a: number_in(page, start, at),
        b: number_in(page, start, at + 4),
        c: number_in(page, start, at + 8),
        d: number_in(page, start, at + 12),
    }
}

// The ranges are four numbers.
fn ranges_in(page: &[u8], start: usize, at: usize) -> Ranges
    requires { start + at + 16 ≤ length page.now }
    ensures { result ≡ ranges_at (drop start page.now) at }
{
    Ranges::from(four_in(page, start, at))
}

fn gray_in(page: &[u8], start: usize) -> CalGray
    requires { start + 512 ≤ length page.now }
    ensures { result ≡ gray_at (drop start page.now) }
{
    CalGray {
        white: triple_in(page, start, 4),
        black: triple_in(page, start, 16),
        gamma: number_in(page, start, 28),
    }
}

fn rgb_in(page: &[u8], start: usize) -> CalRgb
    requires { start + 512 ≤ length page.now }
    ensures { result ≡ rgb_at (drop start page.now) }
{
    CalRgb {
        white: triple_in(page, start, 4),
        black: triple_in(page, start, 16),
        gammas: triple_in(page, start, 28),
        a: triple_in(page, start, 40),
        b: triple_in(page, start, 52),
        c: triple_in(page, start, 64),
    }
}

fn lab_in(page: &[u8], start: usize) -> Lab
    requires { start + 512 ≤ length page.now }
    ensures { result ≡ lab_at (drop start page.now) }
{
    Lab {
        white: triple_in(page, start, 4),
        black: triple_in(page, start, 16),
        range: ranges_in(page, start, 28),
    }
}

fn indexed_in(page: &[u8], start: usize) -> Body
    requires { start + 512 ≤ length page.now }
    ensures { result ≡ Body.Indexed (two_at (drop start page.now) 4) (two_at (drop start page.now) 6) }
{
    Body::Indexed {
        base: two_in(page, start, 4) as u16,
        hival: two_in(page, start, 6) as u16,
    }
}

fn device_n_in(page: &[u8], start: usize) -> Body
    requires { start + 512 ≤ length page.now }
    ensures { result ≡ Body.DeviceN (two_at (drop start page.now) 4) (byte_at (drop start page.now) 6) }
{
    Body::DeviceN {
        alternate: two_in(page, start, 4) as u16,
        count: byte_in(page, start, 6) as u8,
    }
}

fn separation_in(page: &[u8], start: usize) -> Separation
    requires { start + 512 ≤ length page.now }
    ensures { result ≡ separation_at (drop start page.now) }
{
    Separation {
        alternate: two_in(page, start, 4) as u16,
        exponent: byte_in(page, start, 6) as u8,
        name_len: byte_in(page, start, 7) as u8,
        c0: four_in(page, start, 136),
        c1: four_in(page, start, 152),
    }
}

// The body, read as its kind says; an unknown kind is read as free.
#[tactic(auto, unfolding(crate::specs::Reading::body_by))]
fn body_in(page: &[u8], start: usize) -> Body
    requires { start + 512 ≤ length page.now }
    ensures { result ≡ body_at (drop start page.now) }
{
    match byte_in(page, start, 0) {
        1 => Body::CalGray(gray_in(page, start)),
        2 => Body::CalRgb(rgb_in(page, start)),
        3 => Body::Lab(lab_in(page, start)),
        4 => indexed_in(page, start),
        5 => Body::Separation(separation_in(page, start)),
        6 => Body::Palette,
        7 => Body::Program,
        8 => device_n_in(page, start),
        _ => Body::Free,
    }
}

// The entries of C0 or C1, in their order.
pub fn entries_of(q: Four) -> [i32; 4]
    ensures { result ≡ entries_of q }
{
    <[i32; 4]>::from(q)
}

// The kind of block n.
pub fn kind_at(page: &[u8], n: u32) -> u32
    ensures { result ≡ kind_at (block_at page.now n) }
{
    byte_at(page, n, 0)
}

// Whether block n is a palette block.
#[tactic(auto, unfolding(crate::specs::Reading::body_by))]
pub fn is_palette(page: &[u8], n: u32) -> bool
    ensures { result ≡ is_palette (body_at (block_at page.now n)) }
{
    kind_at(page, n) == 6
}

// Whether block n is a block of a program's text.
#[tactic(auto, unfolding(crate::specs::Reading::body_by))]
pub fn is_program(page: &[u8], n: u32) -> bool
    ensures { result ≡ is_program (body_at (block_at page.now n)) }
{
    kind_at(page, n) == 7
}

// Byte k of the part of a palette, or of a program's text, in block n.
pub fn palette_at(page: &[u8], n: u32, k: u32) -> u32
    requires { k < room }
    ensures is { result ≡ palette_at (block_at page.now n) k }
    ensures small { result ≤ 255 }
{
    byte_at(page, n, 4 + k)
}

// The number that block n gives itself.
pub fn own_at(page: &[u8], n: u32) -> u16
    ensures { result ≡ own_at (block_at page.now n) }
{
    two_at(page, n, 2) as u16
}

// The `count` bytes of a page from byte `from` on, with zeros in the place of those that the page does not have, and zeros after them.
fn bytes_from<const N: usize>(page: &[u8], from: usize, count: usize) -> [u8; N]
    requires { count ≤ N }
    ensures { result ≡ padded count (drop from page.now) ++ replicate (N - count) 0 }
{
    let mut bytes = [0u8; N];
    let there = &page[from.min(page.len())..];
    let size = count.min(there.len());
    bytes[..size].copy_from_slice(&there[..size]);
    bytes
}

// The body of block n.
pub fn body_at(page: &[u8], n: u32) -> Body
    ensures { result ≡ body_at (block_at page.now n) }
{
    let start = 512 * (n as usize);
    if start + 512 <= page.len() {
        return body_in(page, start);
    }
    body_in(&bytes_from::<512>(page, start, 512), 0)
}

fn run_at(page: &[u8], n: u32, at: u32, count: u32) -> [u8; 504]
    requires { (count ≤ room) × (at ≤ 512) }
    ensures { result ≡ run_at (block_at page.now n) at count }
{
    bytes_from(page, 512 * n as usize + at as usize, count as usize)
}

// The names of the DeviceN in block n, as its record's room has them.
pub fn names_at(page: &[u8], n: u32) -> [u8; 504]
    ensures { result ≡ names_at (block_at page.now n) }
{
    run_at(page, n, NAME_FROM, NAMES)
}

// Kept: a kind is here a byte of the page, any of 256, of which `body_in` makes a Body.
#[tactic(auto, unfolding(crate::specs::Reading::bytes_by))]
fn bytes_at(page: &[u8], n: u32, kind: u32) -> [u8; 504]
    ensures { result ≡ bytes_by kind (block_at page.now n) }
{
    match kind {
        5 => run_at(page, n, NAME_FROM, 128),
        6 | 7 => run_at(page, n, 4, ROOM),
        8 => names_at(page, n),
        _ => [0; 504],
    }
}

// The record that block n holds.
#[tactic(auto, unfolding(crate::specs::Reading::record_at))]
pub fn record_at(page: &[u8], n: u32) -> Record
    ensures { result ≡ record_at (block_at page.now n) }
{
    Record {
        own: own_at(page, n),
        body: body_at(page, n),
        bytes: bytes_at(page, n, kind_at(page, n)),
    }
}
