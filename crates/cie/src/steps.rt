// Decode, CalGray and CalRGB.
ghost use Rattle.std.specs.Prelude.{◌≡◌, ◌≤◌, ◌/◌, ◌%◌};
ghost use Rattle.fixed.specs.Numbers.{most_tenths};
ghost use Rattle.cie.specs.Steps.{tenths_of, decoded_whole, decoded, white_of, matrix_of, gray_xyz, rgb_xyz};

use crate::{RgbClosing, Xyz};
use fixed::{TENTHS, float_of};
use tenths::decode_tenths;

// The white point of X and Z in millionths, Y being 1.
pub fn white(xw: i32, zw: i32) -> Xyz
    ensures { result ≡ white_of xw zw }
{
    Xyz {
        x: float_of(xw),
        y: 1.0,
        z: float_of(zw),
    }
}

// The matrix of CalRGB's nine numbers in millionths: three rows of three floats, a row to each component.
pub fn matrix(k: RgbClosing) -> [[f64; 3]; 3]
    ensures { result ≡ matrix_of k.xa k.ya k.za k.xb k.yb k.zb k.xc k.yc k.zc }
{
    [
        [float_of(k.xa), float_of(k.ya), float_of(k.za)],
        [float_of(k.xb), float_of(k.yb), float_of(k.zb)],
        [float_of(k.xc), float_of(k.yc), float_of(k.zc)],
    ]
}

// A gamma in millionths as a count of tenths; none that is carried has more than TENTHS.
#[tactic(auto, unfolding(crate::specs::Steps::tenths_of))]
fn tenths(gamma: i32) -> u32
    ensures is { result ≡ tenths_of gamma }
    ensures small { result ≤ most_tenths }
{
    if gamma < 0 {
        return 0;
    }
    (gamma as u32 / 100_000).min(TENTHS)
}

// a to the power of a whole gamma of p tenths.
#[tactic(auto, unfolding(crate::specs::Steps::decoded_whole))]
fn decode_whole(a: f64, p: u32) -> f64
    requires { (p % 10 ≡ 0) × (p ≤ most_tenths) }
    ensures { result ≡ decoded_whole a (p / 10) }
{
    match p {
        20 => a * a,
        30 => a * a * a,
        40 => a * a * a * a,
        _ => a,
    }
}

// The component a decoded by a gamma, both in millionths. The component is as it stands.
#[tactic(auto, unfolding(crate::specs::Steps::decoded))]
pub fn decode(a: i32, gamma: i32) -> f64
    ensures { result ≡ decoded (tenths_of gamma) a }
{
    let p = tenths(gamma);
    if p % 10 == 0 {
        return decode_whole(float_of(a), p);
    }
    decode_tenths(a, p)
}

// CalGray, of a component that is decoded.
pub fn gray(w: Xyz, a: f64) -> Xyz
    ensures { result ≡ gray_xyz w a }
{
    Xyz {
        x: w.x * a,
        y: a,
        z: w.z * a,
    }
}

// CalRGB, of components that are decoded.
pub fn rgb(m: [[f64; 3]; 3], a: f64, b: f64, c: f64) -> Xyz
    ensures { result ≡ rgb_xyz m a b c }
{
    Xyz {
        x: m[0][0] * a + m[1][0] * b + m[2][0] * c,
        y: m[0][1] * a + m[1][1] * b + m[2][1] * c,
        z: m[0][2] * a + m[1][2] * b + m[2][2] * c,
    }
}
