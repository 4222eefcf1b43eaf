// Refusal 3: bytes that must be zero, names, kinds and own numbers, of a block and of a record.
ghost use Rattle.std.specs.Prelude.{◌≡◌, true, cond, List, ℕ, ◌+◌, ◌≤◌, eqb, length};
ghost use Rattle.fixed.specs.Bytes.{block_at, byte_at};
ghost use Rattle.fixed.specs.Loops.{all_between, zero_between};
ghost use Rattle.record.specs.Layout.{named_to};
ghost use Rattle.record.specs.Reading.{body_by, name_place};
ghost use Rattle.record.specs.Rules.{none_zero, name_fits, name_fits_at, names_fit, well_laid, name_shown, well_formed, used, well_named, well_shaped};

use fixed::VALUES;
use octets::byte_at;
use record::{Body, NAME_FROM, NAMES, NUMBERS, ROOM, Record, kind_at, name_place, names_at};

// Whether bytes are zero. It looks at each of them, and has no way out on the way, so that the compiler tests many at a time.
#[tactic(auto, unfolding(fixed::specs::Loops::zero_between))]
fn are_zero(bytes: &[u8]) -> bool
    ensures { result ≡ zero_between bytes.now 0 (length bytes.now) }
{
    let mut zero = true;
    for byte in bytes {
        zero &= *byte == 0;
    }
    zero
}

// Whether the bytes from `from` to below `to` of block n are zero: those that the page does not have are.
pub fn zero_between(page: &[u8], n: u32, from: u32, to: u32) -> bool
    ensures { result ≡ zero_between (block_at page.now n) from to }
{
    let start = 512 * n as usize;
    let end = (start + to as usize).min(page.len());
    let from = (start + from as usize).min(end);
    are_zero(&page[from..end])
}

#[tactic(auto, unfolding(record::specs::Rules::none_zero))]
fn none_zero(page: &[u8], n: u32, from: u32, to: u32) -> bool
    ensures { result ≡ none_zero (block_at page.now n) from to }
{
    for k in from..to {
        if byte_at(page, n, k) == 0 {
            return false;
        }
    }
    true
}

#[tactic(auto, unfolding(record::specs::Rules::name_fits))]
fn name_fits(page: &[u8], n: u32, start: u32, count: u32) -> bool
    requires { (start ≤ 8) × (count ≤ 255) }
    ensures { result ≡ name_fits (block_at page.now n) start count }
{
    let to = start + count;
    (1..=127).contains(&count)
        && none_zero(page, n, start, to)
        && zero_between(page, n, to, start + 128)
}

// Whether the name at `at`, of a DeviceN, has 1 to 48 bytes, none of them zero.
#[tactic(auto, unfolding(record::specs::Rules::name_fits_at))]
fn name_fits_at(s: &[u8], at: u32) -> bool
    requires { at ≤ 65536 }
    ensures { result ≡ name_fits_at s.now at }
{
    let count = byte_at(s, 0, at);
    (1..=48).contains(&count) && none_zero(s, 0, at + 1, at + 1 + count)
}

fn all_fit(s: &[u8], n: u32) -> bool
    requires { n ≤ 255 }
    ensures { result ≡ all_between (λ k. name_fits_at s.now (name_place s.now k)) 0 n }
{
    for k in 0..n {
        if !name_fits_at(s, name_place(s, k)) {
            return false;
        }
    }
    true
}

// Whether s has n names, 1 to 8, and zeros past them in the room of names.
#[tactic(auto, unfolding(record::specs::Rules::names_fit))]
fn names_fit(s: &[u8], n: u32) -> bool
    ensures { result ≡ names_fit s.now n }
{
    (1..=VALUES as u32).contains(&n) && all_fit(s, n) && zero_between(s, 0, name_place(s, n), NAMES)
}

// Kept: a kind is here a byte of the page, any of 256; only a page that is well laid has one of the nine.
#[tactic(auto, unfolding(record::specs::Reading::body_by))]
fn named_to(kind: u32) -> u32
    ensures { (b : List ℕ) → result ≡ named_to (body_by kind b) }
{
    match kind {
        1 => 32,
        2 => 76,
        3 => 44,
        4 => 8,
        5 => 168,
        6..=8 => 508,
        _ => 4,
    }
}

// Whether byte 7 of a DeviceN is zero, which its body does not name.
fn is_seven_zero(page: &[u8], n: u32, kind: u32) -> bool
    ensures { result ≡ cond (eqb kind 8) (eqb (byte_at (block_at page.now n) 7) 0) true }
{
    kind != 8 || byte_at(page, n, 7) == 0
}

// Whether block n has a known kind, and zeros in byte 1 and where its body names no byte.
#[tactic(auto, unfolding(record::specs::Rules::well_laid))]
pub fn is_well_laid(page: &[u8], n: u32) -> bool
    ensures { result ≡ well_laid (block_at page.now n) }
{
    let kind = kind_at(page, n);
    kind <= 8
        && byte_at(page, n, 1) == 0
        && zero_between(page, n, named_to(kind), 508)
        && is_seven_zero(page, n, kind)
}

#[tactic(auto, unfolding(record::specs::Rules::name_shown))]
fn is_name_shown(page: &[u8], n: u32) -> bool
    ensures { result ≡ name_shown (block_at page.now n) }
{
    match kind_at(page, n) {
        5 => name_fits(page, n, NAME_FROM, byte_at(page, n, 7)),
        8 => names_fit(&names_at(page, n), byte_at(page, n, 6)),
        _ => true,
    }
}

// Whether block n shows nothing of refusal 3, its own number aside.
#[tactic(auto, unfolding(record::specs::Rules::well_formed))]
pub fn is_well_formed(page: &[u8], n: u32) -> bool
    ensures { result ≡ well_formed (block_at page.now n) }
{
    is_well_laid(page, n) && is_name_shown(page, n)
}

fn used_of(y: Body) -> u32
    ensures { result ≡ used y }
{
    match y {
        Body::Separation(_) => 128,
        Body::Palette | Body::Program => ROOM,
        Body::DeviceN { .. } => NAMES,
        _ => 0,
    }
}

#[tactic(auto, unfolding(record::specs::Rules::well_named))]
fn is_well_named(y: Body, s: &[u8]) -> bool
    ensures { result ≡ well_named y s.now }
{
    match y {
        Body::Separation(p) => name_fits(s, 0, 0, u32::from(p.name_len)),
        Body::DeviceN { count, .. } => names_fit(s, u32::from(count)),
        _ => true,
    }
}

// Whether a record shows nothing of refusal 3.
#[tactic(auto, unfolding(record::specs::Rules::well_shaped))]
pub fn is_well_shaped(r: Record) -> bool
    ensures { result ≡ well_shaped r }
{
    r.own < NUMBERS
        && is_well_named(r.body, &r.bytes)
        && zero_between(&r.bytes, 0, used_of(r.body), ROOM)
}
