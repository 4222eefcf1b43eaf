// The steps of a recipe, each read off the front of a list of words.
ghost use Rattle.std.specs.Prelude.{◌≡◌, ◌≤◌};
ghost use Rattle.steps.specs.Steps.{
  limit_read,
  row_read,
  tint_read,
  program_read,
  close_read,
  gray_words,
  gray_read,
  rgb_words,
  rgb_read,
  lab_words,
  step_of,
};

use crate::Step;
use crate::words::{gamma_at, is_below, is_count, is_made};
use cie::{Closing, GrayClosing, LabClosing, RgbClosing};
use fixed::{VALUES, is_exponent, small_at, value_at};
use form::is_form_at;

// The last row that a table may have.
const LAST_ROW: u32 = 255;

// 1 k lo hi.
#[tactic(auto, unfolding(crate::specs::Steps::limit_read))]
fn limit_read(l: &[i32]) -> Option<(Step, usize)>
    ensures { result ≡ limit_read l.now }
{
    if l.len() < 4 {
        return None;
    }
    let k = small_at(l, 1);
    if VALUES <= k as usize {
        return None;
    }
    let lo = value_at(l, 2);
    let hi = value_at(l, 3);
    if is_below(hi, lo) {
        return None;
    }
    Some((Step::Limit(k, lo, hi), 4))
}

// 2 m h, and m (h + 1) entries.
#[tactic(auto, unfolding(crate::specs::Steps::row_read))]
fn row_read(l: &[i32]) -> Option<(Step, usize)>
    ensures { result ≡ row_read l.now }
{
    let m = small_at(l, 1);
    let h = small_at(l, 2);
    if !is_count(m) || LAST_ROW < h {
        return None;
    }
    let n = 3 + (m as usize) * ((h as usize) + 1);
    if l.len() < n {
        return None;
    }
    Some((Step::Row(m, h), n))
}

// 3 e m, m C0s, m C1s.
#[tactic(auto, unfolding(crate::specs::Steps::tint_read))]
fn tint_read(l: &[i32]) -> Option<(Step, usize)>
    ensures { result ≡ tint_read l.now }
{
    let e = small_at(l, 1);
    let m = small_at(l, 2);
    if !is_exponent(e) || !is_made(m) {
        return None;
    }
    let n = 3 + 2 * (m as usize);
    if l.len() < n {
        return None;
    }
    Some((Step::Tint(e, m), n))
}

// m n, with m at the place `at`, and n words, the flat form of a program that takes t values and leaves m numbers.
#[tactic(auto, unfolding(crate::specs::Steps::program_read))]
fn program_read(l: &[i32], t: u32, at: u32) -> Option<(Step, usize)>
    requires { at ≤ 2 }
    ensures { result ≡ program_read t at l.now }
{
    let m = small_at(l, at as usize);
    let n = small_at(l, at as usize + 1);
    let from = at + 2;
    if is_form_at(l, from as usize, n as usize, t as usize, m as usize) {
        return Some((Step::Program(t, m, from, n), from as usize + n as usize));
    }
    None
}

// A closing step of n words.
#[tactic(auto, unfolding(crate::specs::Steps::close_read))]
fn close_read(l: &[i32], n: usize, k: Closing) -> Option<(Step, usize)>
    ensures { result ≡ close_read l.now n k }
{
    if l.len() < n {
        return None;
    }
    Some((Step::Close(k), n))
}

fn gray_words(l: &[i32]) -> GrayClosing
    ensures { result ≡ gray_words l.now }
{
    GrayClosing {
        xw: value_at(l, 1),
        zw: value_at(l, 2),
        gamma: value_at(l, 3),
    }
}

// 7 XW ZW gamma.
#[tactic(auto, unfolding(crate::specs::Steps::gray_read))]
fn gray_read(l: &[i32]) -> Option<(Step, usize)>
    ensures { result ≡ gray_read l.now }
{
    if gamma_at(l, 3) {
        return close_read(l, 4, Closing::CalGray(gray_words(l)));
    }
    None
}

// The numbers of step 8.
pub fn rgb_words(l: &[i32]) -> RgbClosing
    ensures { result ≡ rgb_words l.now }
{
    RgbClosing {
        ga: value_at(l, 1),
        gb: value_at(l, 2),
        gc: value_at(l, 3),
        xa: value_at(l, 4),
        ya: value_at(l, 5),
        za: value_at(l, 6),
        xb: value_at(l, 7),
        yb: value_at(l, 8),
        zb: value_at(l, 9),
        xc: value_at(l, 10),
        yc: value_at(l, 11),
        zc: value_at(l, 12),
    }
}

// 8, three gammas, nine matrix numbers.
#[tactic(auto, unfolding(crate::specs::Steps::rgb_read))]
fn rgb_read(l: &[i32]) -> Option<(Step, usize)>
    ensures { result ≡ rgb_read l.now }
{
    if gamma_at(l, 1) && gamma_at(l, 2) && gamma_at(l, 3) {
        return close_read(l, 13, Closing::CalRgb(rgb_words(l)));
    }
    None
}

fn lab_words(l: &[i32]) -> LabClosing
    ensures { result ≡ lab_words l.now }
{
    LabClosing {
        xw: value_at(l, 1),
        zw: value_at(l, 2),
    }
}

// The step at the front of the words.
#[tactic(auto, unfolding(crate::specs::Steps::step_by))]
pub fn step_of(l: &[i32]) -> Option<(Step, usize)>
    ensures { result ≡ step_of l.now }
{
    match small_at(l, 0) {
        1 => limit_read(l),
        2 => row_read(l),
        3 => tint_read(l),
        4 => close_read(l, 1, Closing::Gray),
        5 => close_read(l, 1, Closing::Rgb),
        6 => close_read(l, 1, Closing::Cmyk),
        7 => gray_read(l),
        8 => rgb_read(l),
        9 => close_read(l, 3, Closing::Lab(lab_words(l))),
        10 => close_read(l, 1, Closing::NoMark),
        11 => close_read(l, 1, Closing::EveryInk),
        12 => program_read(l, 1, 1),
        13 => program_read(l, small_at(l, 1), 2),
        _ => None,
    }
}
