// The 20 numbers that C has of a record.
ghost use Rattle.std.specs.Prelude.{◌≡◌, [], ◌∷◌, pos, replicate};
ghost use Rattle.c_records.specs.Records.{three, headed};

use record::{Body, CalGray, CalRgb, Lab, Separation, Triple};

// Three numbers that a kind does not use.
const NONE: Triple = Triple { x: 0, y: 0, z: 0 };

fn triple(x: i32, y: i32, z: i32) -> Triple
    ensures { result ≡ record { x = x; y = y; z = z } }
{
    Triple { x, y, z }
}

// Own number and kind, and then six times three numbers.
// Kept: the kind is a number, as the C interface has it.
fn laid(
    own: u16,
    kind: i32,
    p: Triple,
    q: Triple,
    r: Triple,
    a: Triple,
    b: Triple,
    c: Triple,
) -> [i32; 20]
    ensures { result ≡ pos own ∷ kind ∷ three p (three q (three r (three a (three b (three c []))))) }
{
    [
        own as i32, kind, p.x, p.y, p.z, q.x, q.y, q.z, r.x, r.y, r.z, a.x, a.y, a.z, b.x, b.y,
        b.z, c.x, c.y, c.z,
    ]
}

fn gray_numbers(own: u16, g: CalGray) -> [i32; 20]
    ensures { result ≡ headed own (Body.CalGray g) }
{
    let gamma = triple(g.gamma, 0, 0);
    laid(own, 1, g.white, g.black, gamma, NONE, NONE, NONE)
}

fn rgb_numbers(own: u16, g: CalRgb) -> [i32; 20]
    ensures { result ≡ headed own (Body.CalRgb g) }
{
    laid(own, 2, g.white, g.black, g.gammas, g.a, g.b, g.c)
}

fn lab_numbers(own: u16, g: Lab) -> [i32; 20]
    ensures { result ≡ headed own (Body.Lab g) }
{
    let first = triple(g.range.amin, g.range.amax, g.range.bmin);
    let last = triple(g.range.bmax, 0, 0);
    laid(own, 3, g.white, g.black, first, last, NONE, NONE)
}

fn indexed_numbers(own: u16, base: u16, hival: u16) -> [i32; 20]
    ensures { result ≡ headed own (Body.Indexed base hival) }
{
    let first = triple(base as i32, hival as i32, 0);
    laid(own, 4, first, NONE, NONE, NONE, NONE, NONE)
}

fn device_n_numbers(own: u16, alternate: u16, count: u8) -> [i32; 20]
    ensures { result ≡ headed own (Body.DeviceN alternate count) }
{
    let first = triple(alternate as i32, count as i32, 0);
    laid(own, 8, first, NONE, NONE, NONE, NONE, NONE)
}

fn ink_numbers(own: u16, p: Separation) -> [i32; 20]
    ensures { result ≡ headed own (Body.Separation p) }
{
    let first = triple(p.alternate as i32, p.exponent as i32, p.name_len as i32);
    let second = triple(p.c0.a, p.c0.b, p.c0.c);
    let third = triple(p.c0.d, p.c1.a, p.c1.b);
    let last = triple(p.c1.c, p.c1.d, 0);
    laid(own, 5, first, second, third, last, NONE, NONE)
}

// A body without numbers of its own.
fn bare_numbers(own: u16, kind: i32) -> [i32; 20]
    ensures { result ≡ pos own ∷ kind ∷ replicate 18 (pos 0) }
{
    laid(own, kind, NONE, NONE, NONE, NONE, NONE, NONE)
}

// The numbers of a record of that number and body.
pub fn numbers_of(own: u16, y: Body) -> [i32; 20]
    ensures { result ≡ headed own y }
{
    match y {
        Body::Free => bare_numbers(own, 0),
        Body::CalGray(g) => gray_numbers(own, g),
        Body::CalRgb(g) => rgb_numbers(own, g),
        Body::Lab(g) => lab_numbers(own, g),
        Body::Indexed { base, hival } => indexed_numbers(own, base, hival),
        Body::Separation(p) => ink_numbers(own, p),
        Body::Palette => bare_numbers(own, 6),
        Body::Program => bare_numbers(own, 7),
        Body::DeviceN { alternate, count } => device_n_numbers(own, alternate, count),
    }
}
