// Names: each is its length, one byte, and its bytes.
ghost use Rattle.std.specs.Prelude.{◌≡◌, ◌*◌, ◌≤◌};
ghost use Rattle.fixed.specs.Bytes.{block_at};
ghost use Rattle.record.specs.Reading.{name_is, same_names, name_place, all_none};

use octets::byte_at;

// Whether the name at `at` of block n is exactly this one.
#[tactic(auto, unfolding(crate::specs::Reading::name_is))]
pub fn is_name(page: &[u8], n: u32, at: u32, name: &[u8]) -> bool
    requires { at ≤ 65536 }
    ensures { result ≡ name_is (block_at page.now n) at name.now }
{
    let size = byte_at(page, n, at);
    if size as usize != name.len() {
        return false;
    }
    for k in 0..size {
        if byte_at(page, n, at + 1 + k) != u32::from(name[k as usize]) {
            return false;
        }
    }
    true
}

// Whether the names at p and at q are the same.
// Kept: beside `is_name`, for what is compared is read elsewhere, and past the end of s it is zeros, which no slice has: one function is no plainer.
#[tactic(auto, unfolding(crate::specs::Reading::same_names))]
pub fn is_same_name(s: &[u8], p: u32, q: u32) -> bool
    requires { (p ≤ 65536) × (q ≤ 65536) }
    ensures { result ≡ same_names s.now p q }
{
    let size = byte_at(s, 0, p);
    if size != byte_at(s, 0, q) {
        return false;
    }
    for k in 0..size {
        if byte_at(s, 0, p + 1 + k) != byte_at(s, 0, q + 1 + k) {
            return false;
        }
    }
    true
}

// Where name k stands, of names straight one after the other from the start of s.
#[tactic(auto, unfolding(crate::specs::Reading::name_place))]
pub fn name_place(s: &[u8], k: u32) -> u32
    requires { k ≤ 255 }
    ensures is { result ≡ name_place s.now k }
    ensures small { result ≤ 256 * k }
{
    let mut at: u32 = 0;
    for _ in 0..k {
        at += 1 + byte_at(s, 0, at);
    }
    at
}

// Whether the first n names are all None.
#[tactic(auto, unfolding(crate::specs::Reading::all_none))]
pub fn are_none(s: &[u8], n: u32) -> bool
    requires { n ≤ 255 }
    ensures { result ≡ all_none s.now n }
{
    for k in 0..n {
        if !is_name(s, 0, name_place(s, k), b"None") {
            return false;
        }
    }
    true
}
