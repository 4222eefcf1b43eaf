// From numbers to colours: the steps on f64 (FORMAT.md, Colour steps), each operation rounded once and in that order, and the closing steps that end in an answer.
#![tactic(auto)]

mod closings;
mod lab_step;
mod steps;

pub use closings::{close, close_bare, close_gray, close_lab, decode_rgb, mix};
use fixed::Refused;
pub use lab_step::lab;
pub use steps::{decode, gray, matrix, rgb, white};

// A white point, or a colour's X, Y and Z.
#[derive(Clone, Copy)]
pub struct Xyz {
    pub x: f64,
    pub y: f64,
    pub z: f64,
}

// CalRGB's components, decoded.
#[derive(Clone, Copy)]
pub struct Decoded {
    pub a: f64,
    pub b: f64,
    pub c: f64,
}

// What is replied to a colour: its floats, or the refusal with the block that it is about (0 for the others).
// Kept: an enum of its own with the refusal among its cases, which the customer names (docs/DECISIONS.md, Forms by place in the code).
#[derive(Clone, Copy)]
pub enum Answer {
    Gray(f64),
    Rgb(f64, f64, f64),
    Cmyk(f64, f64, f64, f64),
    Xyz(Xyz),
    // Nothing is marked.
    NoMark,
    // Every ink, with the tint.
    EveryInk(f64),
    Refused(Refused),
}

// An answer, and whether a limit moved anything on the way to it. Beside a refusal that says nothing.
// Kept: the flag is no sign that the answer is missing, but a part of it (FORMAT.md, Answers).
#[derive(Clone, Copy)]
pub struct Answered {
    pub answer: Answer,
    pub moved: bool,
}

// A refusal as a reply: nothing moved on the way to it.
impl From<Refused> for Answered {
    ghost use Rattle.std.specs.Prelude.{◌≡◌, false};
    ghost use Rattle.cie.specs.declared.Answer.TheVariants.{Refused};

    ghost from_gives = { λ e a. a ≡ record { answer = Refused e; moved = false } };

    fn from(refused: Refused) -> Answered {
        Answered {
            answer: Answer::Refused(refused),
            moved: false,
        }
    }
}

// The numbers of CalGray's closing step: X and Z of the white point, and the gamma.
#[derive(Clone, Copy)]
pub struct GrayClosing {
    pub xw: i32,
    pub zw: i32,
    pub gamma: i32,
}

// The numbers of CalRGB's closing step: three gammas, and the matrix in the record's order.
#[derive(Clone, Copy)]
pub struct RgbClosing {
    pub ga: i32,
    pub gb: i32,
    pub gc: i32,
    pub xa: i32,
    pub ya: i32,
    pub za: i32,
    pub xb: i32,
    pub yb: i32,
    pub zb: i32,
    pub xc: i32,
    pub yc: i32,
    pub zc: i32,
}

// The numbers of Lab's closing step: X and Z of the white point.
#[derive(Clone, Copy)]
pub struct LabClosing {
    pub xw: i32,
    pub zw: i32,
}

// The closing step of a space. Nothing is that of no space.
#[derive(Clone, Copy)]
pub enum Closing {
    Nothing,
    Gray,
    Rgb,
    Cmyk,
    CalGray(GrayClosing),
    CalRgb(RgbClosing),
    Lab(LabClosing),
    // That of a Separation named None, and of one named All.
    NoMark,
    EveryInk,
}
