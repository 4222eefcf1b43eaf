// The `]` of a space: 15, 10, or its blocks are made, and what was open around it goes on.
ghost use Rattle.std.specs.Prelude.{◌≡◌, List, ℕ, ◌+◌, ◌-◌, ◌*◌, ◌≤◌, ℤ, length};
ghost use Rattle.fixed.specs.Bytes.{blocks as most};
ghost use Rattle.lexer.specs.Scans.{scan_at};
ghost use Rattle.reader.specs.Spaces.{run_blocks};
ghost use Rattle.reader.specs.Kept.{ring, made_at, parser_at, sorted, took_at};
ghost use Rattle.reader.specs.Tokens.{count_of, closed, took_shut};

use crate::making::make;
use fixed::Refusal;
use lexer::Lexer;
use reader::{Head, Inner, Sort, Want, dictionary, frames, opening};

// How many components a space of a kind has.
#[tactic(auto, unfolding(reader::specs::Tokens::count_of))]
fn count_of(kind: u8) -> u8
    ensures { result ≡ count_of kind }
{
    match kind {
        2 | 3 => 3,
        _ => 1,
    }
}

// How many blocks of palette the space has.
#[tactic(auto, unfolding(reader::specs::Spaces::run_blocks))]
fn run_blocks(h: Head) -> u32
    ensures is { (values : List ℤ) (marks names opens page : List ℕ) → result ≡ run_blocks (parser_at h values marks names opens page) }
    ensures small { result ≤ 40000 }
{
    match h.kind {
        4 => dictionary::palette_size(h.inner).div_ceil(504),
        _ => 0,
    }
}

// The space closes, with 1 + k blocks more.
fn close(h: Head, k: u32, names: &[u8]) -> Head
    requires { (length names.now ≡ 128 * ring) × (h.next + (1 + k) ≤ most) }
    ensures { (values : List ℤ) (marks opens page opens' page' : List ℕ) → parser_at result values marks names.now opens' page' ≡ closed (parser_at h values marks names.now opens page) (made_at (h.next + (1 + k)) opens' page') }
{
    let n = frames::depth(h.deep);
    let m = n.saturating_sub(1);
    let top = frames::before_slot(frames::slot(h.top));
    let name = frames::name_length(names, top, m);
    let inner = Inner {
        count: count_of(h.kind),
        code: u16::from(h.next),
        ..h.inner
    };
    Head {
        want: if m == 0 {
            Want::Top
        } else {
            opening::resume_with(name)
        },
        kind: opening::resume_kind(name),
        inner,
        next: (u32::from(h.next) + (1 + k)) as u8,
        top,
        deep: m,
        ..h
    }
}

// The token where only the `]` of a space may stand.
#[tactic(auto, unfolding(reader::specs::Tokens::took_shut, reader::specs::Tokens::closes))]
pub fn take_shut(
    h: Head,
    l: Lexer,
    t: Sort,
    room: usize,
    values: &[i32],
    word: &[u8],
    marks: &[u32],
    names: &[u8],
    opens: &mut [u32],
    blocks: &mut [u8],
) -> Result<Head, Refusal>
    requires { (length values.now ≡ 30) × ((length names.now ≡ 128 * ring) × ((length marks.now ≡ ring) × ((length opens.old ≡ most) × (length blocks.old ≡ 512 * most)))) }
    ensures { took_at result values.now marks.now names.now opens.new blocks.new ≡ took_shut room (parser_at h values.now marks.now names.now opens.old blocks.old) (scan_at l word.now) (sorted t) }
{
    if t != Sort::ArrayCloses {
        return Err(Refusal::Syntax);
    }
    let k = run_blocks(h);
    let n = u32::from(h.next) + (1 + k);
    if fixed::BLOCKS < n {
        return Err(Refusal::TooManyBlocks);
    }
    let bytes = 512 * (n as usize);
    if room < bytes {
        return Err(Refusal::Room);
    }
    make(h, l, k as usize, values, word, marks, names, opens, blocks);
    Ok(close(h, k, names))
}
