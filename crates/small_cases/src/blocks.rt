// Cases of one block by itself: read, and written.
ghost use Rattle.std.specs.Prelude.{◌≤◌};

use block::{read, write};
use octets::of_signed;
use record::{Body, CalGray, CalRgb, Four, Lab, Ranges, Record, Separation, Triple};
use std::io::Result;
use text::{say, say_dotted, say_next, say_size};

fn say_triple(rt: &impl Print, t: Triple) -> Result<()> {
    say_next(rt, t.x)?;
    say_next(rt, t.y)?;
    say_next(rt, t.z)
}

fn say_four(rt: &impl Print, q: Four) -> Result<()> {
    say_next(rt, q.a)?;
    say_next(rt, q.b)?;
    say_next(rt, q.c)?;
    say_next(rt, q.d)
}

fn say_unsigned(rt: &impl Print, n: u32) -> Result<()> {
    print!(rt; " {n}")
}

fn say_gray(rt: &impl Print, g: CalGray) -> Result<()> {
    say(rt, b" 1")?;
    say_triple(rt, g.white)?;
    say_triple(rt, g.black)?;
    say_next(rt, g.gamma)
}

fn say_rgb(rt: &impl Print, g: CalRgb) -> Result<()> {
    say(rt, b" 2")?;
    say_triple(rt, g.white)?;
    say_triple(rt, g.black)?;
    say_triple(rt, g.gammas)?;
    say_triple(rt, g.a)?;
    say_triple(rt, g.b)?;
    say_triple(rt, g.c)
}

fn say_lab(rt: &impl Print, g: Lab) -> Result<()> {
    say(rt, b" 3")?;
    say_triple(rt, g.white)?;
    say_triple(rt, g.black)?;
    say_next(rt, g.range.amin)?;
    say_next(rt, g.range.amax)?;
    say_next(rt, g.range.bmin)?;
    say_next(rt, g.range.bmax)
}

// The first n of the bytes.
fn say_first(rt: &impl Print, bytes: &[u8], n: usize) -> Result<()> {
    if n <= bytes.len() {
        say_dotted(rt, &bytes[..n])?;
    }
    Ok(())
}

fn say_separation(rt: &impl Print, p: Separation, bytes: &[u8]) -> Result<()> {
    say(rt, b" 5")?;
    say_unsigned(rt, p.alternate as u32)?;
    say_unsigned(rt, p.exponent as u32)?;
    say_unsigned(rt, p.name_len as u32)?;
    say_four(rt, p.c0)?;
    say_four(rt, p.c1)?;
    say(rt, b" x")?;
    say_first(rt, bytes, 128)
}

fn say_device_n(rt: &impl Print, alternate: u16, count: u8, bytes: &[u8]) -> Result<()> {
    say(rt, b" 8")?;
    say_unsigned(rt, alternate as u32)?;
    say_unsigned(rt, count as u32)?;
    say(rt, b" x")?;
    say_first(rt, bytes, 500)
}

fn say_body(rt: &impl Print, y: Body, bytes: &[u8]) -> Result<()> {
    match y {
        Body::Free => say(rt, b" 0"),
        Body::CalGray(g) => say_gray(rt, g),
        Body::CalRgb(g) => say_rgb(rt, g),
        Body::Lab(g) => say_lab(rt, g),
        Body::Indexed { base, hival } => {
            say(rt, b" 4")?;
            say_unsigned(rt, base as u32)?;
            say_unsigned(rt, hival as u32)
        }
        Body::Separation(p) => say_separation(rt, p, bytes),
        Body::Palette => {
            say(rt, b" 6 x")?;
            say_dotted(rt, bytes)
        }
        Body::Program => {
            say(rt, b" 7 x")?;
            say_dotted(rt, bytes)
        }
        Body::DeviceN { alternate, count } => say_device_n(rt, alternate, count, bytes),
    }
}

// Reads a block.
fn read_case(rt: &impl Print, b: &[u8]) -> Result<()> {
    match read(b) {
        Ok(r) => {
            say_size(rt, r.own as u32)?;
            say_body(rt, r.body, &r.bytes)
        }
        Err(refusal) => print!(rt; "{refusal}"),
    }
}

fn short(v: i32) -> u16 {
    (of_signed(v) % 65536) as u16
}

fn small(v: i32) -> u8 {
    (of_signed(v) % 256) as u8
}

// The three numbers from `at` on.
fn triple_at(v: &[i32; 24], at: usize) -> Triple
    requires { at ≤ 21 }
{
    Triple {
        x: v[at],
        y: v[at + 1],
        z: v[at + 2],
    }
}

// The four numbers from `at` on.
fn four_at(v: &[i32; 24], at: usize) -> Four
    requires { at ≤ 20 }
{
    Four {
        a: v[at],
        b: v[at + 1],
        c: v[at + 2],
        d: v[at + 3],
    }
}

fn gray_of(v: &[i32; 24]) -> Body {
    Body::CalGray(CalGray {
        white: triple_at(v, 3),
        black: triple_at(v, 6),
        gamma: v[9],
    })
}

fn rgb_of(v: &[i32; 24]) -> Body {
    Body::CalRgb(CalRgb {
        white: triple_at(v, 3),
        black: triple_at(v, 6),
        gammas: triple_at(v, 9),
        a: triple_at(v, 12),
        b: triple_at(v, 15),
        c: triple_at(v, 18),
    })
}

fn lab_of(v: &[i32; 24]) -> Body {
    Body::Lab(Lab {
        white: triple_at(v, 3),
        black: triple_at(v, 6),
        range: Ranges {
            amin: v[9],
            amax: v[10],
            bmin: v[11],
            bmax: v[12],
        },
    })
}

fn separation_of(v: &[i32; 24]) -> Body {
    Body::Separation(Separation {
        alternate: short(v[3]),
        exponent: small(v[4]),
        name_len: small(v[5]),
        c0: four_at(v, 6),
        c1: four_at(v, 10),
    })
}

// The body of kind v[2] whose numbers stand from v[3] on, in the order of the layout.
fn body_of(v: &[i32; 24]) -> Body {
    match of_signed(v[2]) {
        1 => gray_of(v),
        2 => rgb_of(v),
        3 => lab_of(v),
        4 => Body::Indexed {
            base: short(v[3]),
            hival: short(v[4]),
        },
        5 => separation_of(v),
        6 => Body::Palette,
        7 => Body::Program,
        8 => Body::DeviceN {
            alternate: short(v[3]),
            count: small(v[4]),
        },
        _ => Body::Free,
    }
}

// The bytes at the start of a room of a record's, the others 0.
fn room_of(s: &[u8]) -> [u8; 504] {
    let mut bytes = [0u8; 504];
    for (byte, x) in bytes.iter_mut().zip(s) {
        *byte = *x;
    }
    bytes
}

// Whether each byte is AA.
pub fn is_kept(s: &[u8]) -> bool {
    s.iter().all(|x| *x == 0xaa)
}

// Writes a record into bytes that hold AA.
fn write_case(rt: &impl Print, v: [i32; 24], s: &[u8]) -> Result<()> {
    let r = Record {
        own: short(v[1]),
        body: body_of(&v),
        bytes: room_of(s),
    };
    let mut out = [0xaau8; 512];
    match write(r, &mut out) {
        Ok(()) => {
            say(rt, b"x")?;
            say_dotted(rt, &out)
        }
        Err(refusal) => {
            print!(rt; "{refusal}")?;
            if is_kept(&out) {
                say(rt, b" kept")?;
            }
            Ok(())
        }
    }
}

// Operations 20 and 21: reading a block, writing a record.
// Kept: an operation is a number in the text of a case, as in `page_case` of `cases`.
pub fn block_case(rt: &impl Print, op: u32, v: [i32; 24], bytes: &[u8]) -> Result<()> {
    match op {
        20 => read_case(rt, bytes),
        21 => write_case(rt, v, bytes),
        _ => say(rt, b"no such case"),
    }
}
