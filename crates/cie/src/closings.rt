// The closing steps: from the values, as they stand, to an answer.
ghost use Rattle.std.specs.Prelude.{◌≡◌, [], ◌∷◌, Bool};
ghost use Rattle.cie.specs.Answers.{said};
ghost use Rattle.cie.specs.Bare.{bare_of};
ghost use Rattle.cie.specs.Closings.{cal_gray_of, decoded_of, mixed_of, cal_rgb_of, cal_lab_of, closed_by};

use crate::lab_step::lab;
use crate::steps::{decode, gray, matrix, rgb, white};
use crate::{Answer, Closing, Decoded, GrayClosing, LabClosing, RgbClosing, Xyz};
use fixed::{Refusal, float_of};

// The point that CalGray gives of its one component.
pub fn close_gray(k: GrayClosing, a: i32) -> Xyz
    ensures { result ≡ cal_gray_of k a }
{
    gray(white(k.xw, k.zw), decode(a, k.gamma))
}

// CalRGB's components, each decoded by its own gamma.
pub fn decode_rgb(k: RgbClosing, a: i32, b: i32, c: i32) -> Decoded
    ensures { result ≡ decoded_of k a b c }
{
    Decoded {
        a: decode(a, k.ga),
        b: decode(b, k.gb),
        c: decode(c, k.gc),
    }
}

// The point that CalRGB gives of its components, which are decoded.
pub fn mix(k: RgbClosing, d: Decoded) -> Xyz
    ensures { result ≡ mixed_of k d }
{
    rgb(matrix(k), d.a, d.b, d.c)
}

fn close_rgb(k: RgbClosing, a: i32, b: i32, c: i32) -> Xyz
    ensures { result ≡ cal_rgb_of k a b c }
{
    mix(k, decode_rgb(k, a, b, c))
}

// The point that Lab gives of its three components.
pub fn close_lab(k: LabClosing, l: i32, a: i32, b: i32) -> Xyz
    ensures { result ≡ cal_lab_of k l a b }
{
    lab(white(k.xw, k.zw), l, a, b)
}

// What the values answer at a closing step that has no numbers: a device space's, that of None or of All; that of no space is refused, and so is one that has numbers.
#[tactic(auto, unfolding(crate::specs::Bare::bare_of, crate::specs::Closings::closed_by))]
pub fn close_bare(k: Closing, a: i32, b: i32, c: i32, d: i32) -> Answer
    ensures { (m : Bool) → said result m ≡ closed_by (bare_of k) (a ∷ b ∷ c ∷ d ∷ []) m }
{
    match k {
        Closing::Gray => Answer::Gray(float_of(a)),
        Closing::Rgb => Answer::Rgb(float_of(a), float_of(b), float_of(c)),
        Closing::Cmyk => Answer::Cmyk(float_of(a), float_of(b), float_of(c), float_of(d)),
        Closing::NoMark => Answer::NoMark,
        Closing::EveryInk => Answer::EveryInk(float_of(a)),
        _ => Answer::Refused(Refusal::NoSuchSpace.of_block(0)),
    }
}

// What the values a, b, c and d answer: a closing step reads no more than four. They are not limited here, so nothing moves.
pub fn close(k: Closing, a: i32, b: i32, c: i32, d: i32) -> Answer
    ensures { (m : Bool) → said result m ≡ closed_by k (a ∷ b ∷ c ∷ d ∷ []) m }
{
    match k {
        Closing::CalGray(g) => Answer::Xyz(close_gray(g, a)),
        Closing::CalRgb(g) => Answer::Xyz(close_rgb(g, a, b, c)),
        Closing::Lab(g) => Answer::Xyz(close_lab(g, a, b, c)),
        _ => close_bare(k, a, b, c, d),
    }
}
