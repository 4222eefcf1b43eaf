// The tokens where a space opens: `[`, the family's name, an ink's name, an inner space.
ghost use Rattle.std.specs.Prelude.{◌≡◌, List, ℕ, ◌+◌, ◌*◌, ◌<◌, ◌≤◌, ℤ, length};
ghost use Rattle.lexer.specs.Scans.{longest, scan_at, takes};
ghost use Rattle.reader.specs.Kept.{ring, parser_at, sorted, took_at, Turns};
ghost use Rattle.reader.specs.Tokens.{opens as opens_at, took_top, wanted_by, took_family, resumes, resumed, took_space, took_ink};

use crate::frames;
use crate::making::held;
use crate::types::{Head, Inner, Sort, Want};
use fixed::Refusal;
use keys::names;
use lexer::Lexer;

// `[` where a space may stand.
#[tactic(auto, unfolding(crate::specs::Tokens::opens))]
fn open_space(h: Head, first: u32, marks: &mut [u32], names: &mut [u8]) -> Result<Head, Refusal>
    requires { (length marks.old ≡ ring) × (length names.old ≡ 128 * ring) }
    ensures { (values : List ℤ) (opens page : List ℕ) → took_at result values marks.new names.new opens page ≡ takes (opens_at (parser_at h values marks.old names.old opens page) first) }
{
    let x = frames::slot(h.top);
    let n = frames::depth(h.deep);
    frames::open_slot(marks, names, x, first);
    Ok(Head {
        want: Want::Family,
        top: frames::after_slot(x),
        deep: if n < frames::RING { n + 1 } else { n },
        ..h
    })
}

// The outermost level.
#[tactic(auto, unfolding(crate::specs::Tokens::took_top))]
pub fn take_top(
    h: Head,
    l: Lexer,
    t: Sort,
    marks: &mut [u32],
    names: &mut [u8],
) -> Result<Head, Refusal>
    requires { (length marks.old ≡ ring) × (length names.old ≡ 128 * ring) }
    ensures { (values : List ℤ) (word opens page : List ℕ) → took_at result values marks.new names.new opens page ≡ took_top (parser_at h values marks.old names.old opens page) (scan_at l word) (sorted t) }
{
    match t {
        Sort::ArrayOpens => open_space(h, l.first, marks, names),
        _ => Err(Refusal::Syntax),
    }
}

// What a family has first.
#[tactic(auto, unfolding(crate::specs::Tokens::wanted_by))]
fn wanted_by(kind: u8) -> Want
    ensures { result ≡ wanted_by kind }
{
    match kind {
        0..=3 => Want::Dict,
        4 => Want::Space,
        _ => Want::Ink,
    }
}

// The family's name.
#[tactic(auto, unfolding(crate::specs::Tokens::took_family, crate::specs::Tokens::of_family))]
pub fn take_family(h: Head, l: Lexer, t: Sort, word: &[u8]) -> Result<Head, Refusal>
    ensures { Turns h result (λ a. took_family a (scan_at l word.now) (sorted t)) }
{
    match names::family_named(held(word, l.size)) {
        Some(kind) if t == Sort::Name => Ok(Head {
            want: wanted_by(kind),
            kind,
            ..h
        }),
        _ => Err(Refusal::Syntax),
    }
}

// What goes on after an inner space, where the name around it has n bytes: a Separation has one, an Indexed none.
#[tactic(auto, unfolding(crate::specs::Tokens::resumes))]
pub fn resume_with(n: u8) -> Want
    ensures { (w : List ℕ) → n ≡ length w → result ≡ resumes w }
{
    if n == 0 { Want::Hival } else { Want::Dict }
}

// And the kind of the space around it.
#[tactic(auto, unfolding(crate::specs::Tokens::resumed))]
pub fn resume_kind(n: u8) -> u8
    ensures { (w : List ℕ) → n ≡ length w → result ≡ resumed w }
{
    if n == 0 { 4 } else { 5 }
}

// An inner space: a device space as a bare name, or `[`.
#[tactic(auto, unfolding(crate::specs::Tokens::took_space, crate::specs::Tokens::device))]
pub fn take_space(
    h: Head,
    l: Lexer,
    t: Sort,
    word: &[u8],
    marks: &mut [u32],
    names: &mut [u8],
) -> Result<Head, Refusal>
    requires { (length marks.old ≡ ring) × (length names.old ≡ 128 * ring) }
    ensures { (values : List ℤ) (opens page : List ℕ) → took_at result values marks.new names.new opens page ≡ took_space (parser_at h values marks.old names.old opens page) (scan_at l word.now) (sorted t) }
{
    if t == Sort::ArrayOpens {
        return open_space(h, l.first, marks, names);
    }
    match names::device_named(held(word, l.size)) {
        Some(count) if t == Sort::Name => {
            let x = frames::slot(h.top);
            let around = frames::name_length(names, x, frames::depth(h.deep));
            let inner = Inner {
                count,
                code: 0xFF00 + u16::from(count),
                ..h.inner
            };
            Ok(Head {
                want: resume_with(around),
                inner,
                ..h
            })
        }
        _ => Err(Refusal::Syntax),
    }
}

// An ink's name.
#[tactic(auto, unfolding(crate::specs::Tokens::took_ink, crate::specs::Tokens::inked))]
pub fn take_ink(h: Head, l: Lexer, t: Sort, word: &[u8], names: &mut [u8]) -> Result<Head, Refusal>
    requires { (length word.now ≡ longest) × (length names.old ≡ 128 * ring) }
    ensures { (values : List ℤ) (marks opens page : List ℕ) → took_at result values marks names.new opens page ≡ took_ink (parser_at h values marks names.old opens page) (scan_at l word.now) (sorted t) }
{
    match t {
        Sort::Name if 1 <= l.size && l.size <= 127 => {
            frames::name_slot(names, frames::slot(h.top), word, l.size as u8);
            Ok(Head {
                want: Want::Space,
                ..h
            })
        }
        _ => Err(Refusal::Syntax),
    }
}
