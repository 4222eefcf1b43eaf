// The record that a closing bracket makes.
ghost use Rattle.std.specs.Prelude.{◌≡◌, List, ℕ, ◌+◌, ◌*◌, ◌≤◌, length, take, drop, replicate};
ghost use Rattle.std.proofs.lemmas.List.Edits.{sets};
ghost use Rattle.fixed.specs.Values.{value};
ghost use Rattle.layout.specs.Field.{padded};
ghost use Rattle.reader.specs.Spaces.{triple_in, ranges_in, four_in, body_of, palette_of, record_of};
ghost use Rattle.reader.specs.Kept.{ring, parser_at};

use crate::frames;
use crate::types::{Entry, Head, Inner};
use record::{Body, CalGray, CalRgb, Four, Lab, Ranges, Record, Separation, Triple};

fn triple_in(v: &[i32], k: usize) -> Triple
    requires { k + 3 ≤ length v.now }
    ensures { result ≡ triple_in v.now k }
{
    Triple {
        x: v[k],
        y: v[k + 1],
        z: v[k + 2],
    }
}

fn ranges_in(v: &[i32], k: usize) -> Ranges
    requires { k + 4 ≤ length v.now }
    ensures { result ≡ ranges_in v.now k }
{
    Ranges::from(four_in(v, k))
}

fn four_in(v: &[i32], k: usize) -> Four
    requires { k + 4 ≤ length v.now }
    ensures { result ≡ four_in v.now k }
{
    Four {
        a: v[k],
        b: v[k + 1],
        c: v[k + 2],
        d: v[k + 3],
    }
}

fn gray_in(v: &[i32]) -> Body
    requires { length v.now ≡ 30 }
    ensures { result ≡ Body.CalGray (record { white = triple_in v.now 0; black = triple_in v.now 3; gamma = value v.now 6 }) }
{
    let white = triple_in(v, 0);
    let black = triple_in(v, 3);
    let gamma = fixed::value_at(v, 6);
    Body::CalGray(CalGray {
        white,
        black,
        gamma,
    })
}

fn rgb_in(v: &[i32]) -> Body
    requires { length v.now ≡ 30 }
    ensures { result ≡ Body.CalRgb (record { white = triple_in v.now 0; black = triple_in v.now 3; gammas = triple_in v.now 6; a = triple_in v.now 9; b = triple_in v.now 12; c = triple_in v.now 15 }) }
{
    let white = triple_in(v, 0);
    let black = triple_in(v, 3);
    let gammas = triple_in(v, 6);
    let a = triple_in(v, 9);
    let b = triple_in(v, 12);
    let c = triple_in(v, 15);
    Body::CalRgb(CalRgb {
        white,
        black,
        gammas,
        a,
        b,
        c,
    })
}

fn lab_in(v: &[i32]) -> Body
    requires { length v.now ≡ 30 }
    ensures { result ≡ Body.Lab (record { white = triple_in v.now 0; black = triple_in v.now 3; range = ranges_in v.now 18 }) }
{
    let white = triple_in(v, 0);
    let black = triple_in(v, 3);
    let range = ranges_in(v, 18);
    Body::Lab(Lab {
        white,
        black,
        range,
    })
}

fn ink_in(v: &[i32], code: u16, exponent: u8, n: u8) -> Body
    requires { length v.now ≡ 30 }
    ensures { result ≡ Body.Separation (record { alternate = code; exponent = exponent; name_len = n; c0 = four_in v.now 22; c1 = four_in v.now 26 }) }
{
    let c0 = four_in(v, 22);
    let c1 = four_in(v, 26);
    Body::Separation(Separation {
        alternate: code,
        exponent,
        name_len: n,
        c0,
        c1,
    })
}

// The body of a space's record.
#[tactic(auto, unfolding(crate::specs::Spaces::body_of))]
pub fn body_of(kind: u8, inner: Inner, entry: Entry, v: &[i32], n: u8) -> Body
    requires { length v.now ≡ 30 }
    ensures { result ≡ body_of kind inner entry v.now n }
{
    match kind {
        1 => gray_in(v),
        2 => rgb_in(v),
        3 => lab_in(v),
        4 => Body::Indexed {
            base: inner.code,
            hival: inner.hival,
        },
        _ => ink_in(v, inner.code, entry.exponent, n),
    }
}

// The first 504 bytes, with zeros past them.
pub fn room_of(s: &[u8]) -> [u8; 504]
    ensures { result ≡ padded 504 s.now }
{
    let n = s.len().min(504);
    let mut bytes = [0u8; 504];
    bytes[..n].copy_from_slice(&s[..n]);
    bytes
}

// A part of a palette, as block number own.
#[tactic(auto, unfolding(crate::specs::Spaces::palette_of))]
pub fn palette_of(part: &[u8], own: usize) -> Record
    requires { own ≤ 65535 }
    ensures { result ≡ palette_of own part.now }
{
    Record {
        own: own as u16,
        body: Body::Palette,
        bytes: room_of(part),
    }
}

// Notes the opening bracket of k blocks from number own on.
pub fn put_opens(opens: &mut [u32], own: usize, k: usize, at: u32)
    requires { own + k ≤ length opens.old }
    ensures { opens.new ≡ sets opens.old own (replicate k at) }
{
    opens[own..own + k].fill(at);
}

// What is held of a name or string of n bytes.
pub fn held(word: &[u8], n: u32) -> &[u8]
    ensures { result.now ≡ take n word.now }
{
    &word[..word.len().min(n as usize)]
}

// The record of the space that closes.
pub fn record_of(h: Head, values: &[i32], names: &[u8]) -> Record
    requires { (length values.now ≡ 30) × (length names.now ≡ 128 * ring) }
    ensures { (marks opens page : List ℕ) → result ≡ record_of (parser_at h values.now marks names.now opens page) }
{
    let x = frames::slot(h.top);
    let n = frames::depth(h.deep);
    let len = frames::name_length(names, x, n);
    let from = 128 * (x as usize) + 1;
    let body = body_of(h.kind, h.inner, h.entry, values, len);
    let bytes = room_of(&names[from..from + len as usize]);
    Record {
        own: h.next as u16,
        body,
        bytes,
    }
}
