// A level of a space, read once: a plain space whole, and an Indexed or a Separation with the number of the space within.
ghost use Rattle.std.specs.Prelude.{◌≡◌, List, ℕ, ◌<◌};
ghost use Rattle.space.specs.Pages.{gray_numbers, rgb_numbers, lab_numbers, plain_at, tinted_at};
ghost use Rattle.space.specs.Levels.{space_in, rank_in, no_ranges, nothing, is_named, ink_level, device_n_level, level_of, device_closing, level_at};

use cie::{Closing, GrayClosing, LabClosing, RgbClosing};
use fixed::BLOCKS;
use form::Tints;
use record::{
    Body, CalGray, CalRgb, Lab, Ranges, Separation, are_none, body_at, is_name, names_at,
};

// What a number stands for, as far as the next space within.
#[derive(Clone, Copy, Drop)]
pub enum Level {
    // A device space, CalGray, CalRGB or Lab, or a Separation named All: its closing step, and a Lab's ranges. A number that is no space's has the
    // closing step of nothing.
    Plain(Closing, Ranges),
    // A Separation named None, or a DeviceN all of whose names are None, with the tints that it is given.
    Blank(Tints),
    // A Separation of any other name with its exponent, C0 and C1, and the number of its alternate.
    Separation(Separation),
    // A Separation of any other name, or a DeviceN, whose program stands in the blocks after its own, with the number of its alternate, and the tints that it takes.
    Program {
        block: u16,
        alternate: u16,
        tints: Tints,
    },
    // The Indexed space of a block, with the number of its base.
    Indexed {
        block: u16,
        base: u16,
        hival: u16,
    },
}

fn gray_numbers(g: CalGray) -> GrayClosing
    ensures { result ≡ gray_numbers g }
{
    GrayClosing {
        xw: g.white.x,
        zw: g.white.z,
        gamma: g.gamma,
    }
}

// The matrix stays in the record's order.
fn rgb_numbers(g: CalRgb) -> RgbClosing
    ensures { result ≡ rgb_numbers g }
{
    RgbClosing {
        ga: g.gammas.x,
        gb: g.gammas.y,
        gc: g.gammas.z,
        xa: g.a.x,
        ya: g.a.y,
        za: g.a.z,
        xb: g.b.x,
        yb: g.b.y,
        zb: g.b.z,
        xc: g.c.x,
        yc: g.c.y,
        zc: g.c.z,
    }
}

fn lab_numbers(g: Lab) -> LabClosing
    ensures { result ≡ lab_numbers g }
{
    LabClosing {
        xw: g.white.x,
        zw: g.white.z,
    }
}

fn no_ranges() -> Ranges
    ensures { result ≡ no_ranges }
{
    Ranges {
        amin: 0,
        amax: 0,
        bmin: 0,
        bmax: 0,
    }
}

fn nothing() -> Level
    ensures { result ≡ nothing }
{
    Level::Plain(Closing::Nothing, no_ranges())
}

fn lab_level(g: Lab) -> Level
    ensures { result ≡ Level.Plain (Closing.Lab (lab_numbers g)) g.range }
{
    Level::Plain(Closing::Lab(lab_numbers(g)), g.range)
}

// The level of the Separation p of block n: its name is looked at here, and nowhere else.
#[tactic(auto, unfolding(crate::specs::Levels::ink_level))]
fn ink_level(page: &[u8], n: u16, p: Separation) -> Level
    ensures { result ≡ ink_level page.now n p }
{
    if is_name(page, n as u32, 7, b"None") {
        return Level::Blank(Tints::One);
    }
    if is_name(page, n as u32, 7, b"All") {
        return Level::Plain(Closing::EveryInk, no_ranges());
    }
    if p.exponent == 0 {
        return Level::Program {
            block: n,
            alternate: p.alternate,
            tints: Tints::One,
        };
    }
    Level::Separation(p)
}

// The level of the DeviceN of block n: its names are looked at here.
#[tactic(auto, unfolding(crate::specs::Levels::device_n_level))]
fn device_n_level(page: &[u8], n: u16, alternate: u16, count: u8) -> Level
    ensures { result ≡ device_n_level page.now n alternate count }
{
    let tints = Tints::Inks(count as u32);
    if are_none(&names_at(page, n as u32), count as u32) {
        return Level::Blank(tints);
    }
    Level::Program {
        block: n,
        alternate,
        tints,
    }
}

// The level of block n, whose body is given.
#[tactic(auto, unfolding(crate::specs::Levels::level_of))]
fn level_of(page: &[u8], n: u16, y: Body) -> Level
    ensures { result ≡ level_of page.now n y }
{
    match y {
        Body::Free | Body::Palette | Body::Program => nothing(),
        Body::CalGray(g) => Level::Plain(Closing::CalGray(gray_numbers(g)), no_ranges()),
        Body::CalRgb(g) => Level::Plain(Closing::CalRgb(rgb_numbers(g)), no_ranges()),
        Body::Lab(g) => lab_level(g),
        Body::Indexed { base, hival } => Level::Indexed {
            block: n,
            base,
            hival,
        },
        Body::Separation(p) => ink_level(page, n, p),
        Body::DeviceN { alternate, count } => device_n_level(page, n, alternate, count),
    }
}

// The closing step of a device space, by its code.
#[tactic(auto, unfolding(crate::specs::Levels::device_closing))]
fn device_closing(n: u32) -> Closing
    ensures { result ≡ device_closing n }
{
    match n {
        0xFF01 => Closing::Gray,
        0xFF03 => Closing::Rgb,
        0xFF04 => Closing::Cmyk,
        _ => Closing::Nothing,
    }
}

// The level at a number: a block's number, or a device code.
#[tactic(auto, unfolding(crate::specs::Levels::level_at))]
pub fn level_at(page: &[u8], n: u32) -> Level
    ensures { result ≡ level_at page.now n }
{
    if n < BLOCKS {
        return level_of(page, n as u16, body_at(page, n));
    }
    Level::Plain(device_closing(n), no_ranges())
}

// Whether a closing step is that of a Separation named None or All.
fn is_named(c: Closing) -> bool
    ensures { result ≡ is_named c }
{
    matches!(c, Closing::NoMark | Closing::EveryInk)
}

// The level that an Indexed refers to: a Separation, or plain.
pub fn tinted_at(page: &[u8], n: u16) -> Level
    ensures is { space_in page.now result ≡ tinted_at page.now n }
    ensures falls { rank_in result < 2 }
{
    let l = level_at(page, n as u32);
    match l {
        Level::Indexed { .. } => nothing(),
        _ => l,
    }
}

// The level that a Separation refers to, which is a device space, CalGray, CalRGB or Lab.
pub fn plain_at(page: &[u8], n: u16) -> Level
    ensures is { space_in page.now result ≡ plain_at page.now n }
    ensures falls { rank_in result < 1 }
{
    let l = level_at(page, n as u32);
    match l {
        Level::Plain(c, _) if !is_named(c) => l,
        // Kept: an arm of its own, for it alone keeps a Separation from a Separation, and so from itself.
        Level::Separation(_) => nothing(),
        _ => nothing(),
    }
}
