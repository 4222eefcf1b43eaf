// Cases of the crate `cie`.
use cie::{RgbClosing, decode, decode_rgb, gray, lab, mix, white};
use std::io::Result;
use text::{say, say_float, say_xyz};

fn rgb_case(rt: &impl Print, v: [i32; 24]) -> Result<()> {
    let k = RgbClosing {
        ga: v[1],
        gb: v[2],
        gc: v[3],
        xa: v[4],
        ya: v[5],
        za: v[6],
        xb: v[7],
        yb: v[8],
        zb: v[9],
        xc: v[10],
        yc: v[11],
        zc: v[12],
    };
    say_xyz(rt, mix(k, decode_rgb(k, v[13], v[14], v[15])))
}

// Operations 10 to 13: decode, CalGray, CalRGB and Lab. The components are as they stand, and gammas are in millionths.
// Kept: an operation is a number in the text of a case, as in `page_case` of `cases`.
pub fn step_case(rt: &impl Print, op: u32, v: [i32; 24]) -> Result<()> {
    match op {
        10 => say_float(rt, decode(v[1], v[2])),
        11 => say_xyz(rt, gray(white(v[1], v[2]), decode(v[4], v[3]))),
        12 => rgb_case(rt, v),
        13 => say_xyz(rt, lab(white(v[1], v[2]), v[3], v[4], v[5])),
        _ => say(rt, b"no such case"),
    }
}
