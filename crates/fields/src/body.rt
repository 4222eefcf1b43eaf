// Storing the body of a record, kind by kind: each leaves the bytes with the fields of that body from byte 4 on, and zeros after them up to byte 508.
#![tactic(auto, unfolding(layout::specs::Field::puts))]

ghost use Rattle.std.specs.Prelude.{◌≡◌, [], ◌++◌, length};
ghost use Rattle.layout.specs.Field.{puts};
ghost use Rattle.record.specs.Layout.{body, rest};

use crate::numbers::{put_four, put_ranges, put_triple};
use layout::{put_num, put_one, put_run, put_two, put_zeros};
use record::{Body, CalGray, CalRgb, Lab, Separation};

fn put_gray(out: &mut [u8], g: CalGray)
    requires { length out.old ≡ 512 }
    ensures { out.new ≡ puts out.old 4 (body (Body.CalGray g) [] ++ rest (Body.CalGray g)) }
{
    put_triple(out, 4, g.white);
    put_triple(out, 16, g.black);
    put_num(out, 28, g.gamma);
    put_zeros(out, 32, 508);
}

fn put_rgb(out: &mut [u8], g: CalRgb)
    requires { length out.old ≡ 512 }
    ensures { out.new ≡ puts out.old 4 (body (Body.CalRgb g) [] ++ rest (Body.CalRgb g)) }
{
    put_triple(out, 4, g.white);
    put_triple(out, 16, g.black);
    put_triple(out, 28, g.gammas);
    put_triple(out, 40, g.a);
    put_triple(out, 52, g.b);
    put_triple(out, 64, g.c);
    put_zeros(out, 76, 508);
}

fn put_lab(out: &mut [u8], g: Lab)
    requires { length out.old ≡ 512 }
    ensures { out.new ≡ puts out.old 4 (body (Body.Lab g) [] ++ rest (Body.Lab g)) }
{
    put_triple(out, 4, g.white);
    put_triple(out, 16, g.black);
    put_ranges(out, 28, g.range);
    put_zeros(out, 44, 508);
}

fn put_indexed(out: &mut [u8], base: u16, hival: u16)
    requires { length out.old ≡ 512 }
    ensures { out.new ≡ puts out.old 4 (body (Body.Indexed base hival) [] ++ rest (Body.Indexed base hival)) }
{
    put_two(out, 4, base as u32);
    put_two(out, 6, hival as u32);
    put_zeros(out, 8, 508);
}

fn put_separation(out: &mut [u8], p: Separation, s: &[u8; 504])
    requires { length out.old ≡ 512 }
    ensures { out.new ≡ puts out.old 4 (body (Body.Separation p) s.now ++ rest (Body.Separation p)) }
{
    put_two(out, 4, p.alternate as u32);
    put_one(out, 6, p.exponent);
    put_one(out, 7, p.name_len);
    put_run(out, 8, s, 128);
    put_four(out, 136, p.c0);
    put_four(out, 152, p.c1);
    put_zeros(out, 168, 508);
}

fn put_device_n(out: &mut [u8], alternate: u16, count: u8, s: &[u8; 504])
    requires { length out.old ≡ 512 }
    ensures { out.new ≡ puts out.old 4 (body (Body.DeviceN alternate count) s.now ++ rest (Body.DeviceN alternate count)) }
{
    put_two(out, 4, alternate as u32);
    put_one(out, 6, count);
    put_one(out, 7, 0);
    put_run(out, 8, s, 500);
    put_zeros(out, 508, 508);
}

// Stores the body y; s is the record's room, with its name, names, palette or program.
pub fn put_body(out: &mut [u8], y: Body, s: &[u8; 504])
    requires { length out.old ≡ 512 }
    ensures { out.new ≡ puts out.old 4 (body y s.now ++ rest y) }
{
    match y {
        Body::Free => put_zeros(out, 4, 508),
        Body::CalGray(g) => put_gray(out, g),
        Body::CalRgb(g) => put_rgb(out, g),
        Body::Lab(g) => put_lab(out, g),
        Body::Indexed { base, hival } => put_indexed(out, base, hival),
        Body::Separation(p) => put_separation(out, p, s),
        Body::Palette | Body::Program => put_run(out, 4, s, 504),
        Body::DeviceN { alternate, count } => put_device_n(out, alternate, count, s),
    }
}
