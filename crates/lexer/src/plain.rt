// Runs of bytes that meet nothing and leave the mode as it is: most of a text, so they are passed over quickly.
ghost use Rattle.std.specs.Prelude.{◌≡◌, ◌≤◌, length, drop};
ghost use Rattle.lexer.specs.Scans.{longest, is_plain, is_regular, is_spelled, plain_scan, found, scan_at};

use crate::moves::{deeper, is_gap};
use crate::scans::{BOUND, note};
use crate::types::{Lexer, Mode, Skipped};
use lexical::{hex_byte, hex_of, is_line_end, is_regular, is_white, no_number, with_figure};

// Whether a byte is plain in a mode.
#[tactic(auto, unfolding(crate::specs::Scans::is_plain))]
fn is_plain(m: Mode, b: u8) -> bool
    ensures { result ≡ is_plain m b }
{
    match m {
        Mode::Gap => is_white(b),
        Mode::Comment => !is_line_end(b),
        Mode::Regular => is_regular(b),
        Mode::Name => is_regular(b) && b != b'#',
        Mode::Text(_) => !matches!(b, b'(' | b')' | b'\\' | b'\r'),
        _ => false,
    }
}

fn is_figures(m: Mode) -> bool
    ensures { result ≡ is_regular m }
{
    matches!(m, Mode::Regular)
}

fn is_spelled(m: Mode) -> bool
    ensures { result ≡ is_spelled m }
{
    matches!(m, Mode::Name | Mode::Text(_))
}

// What a plain byte does.
#[tactic(auto, unfolding(crate::specs::Scans::plain_scan))]
fn pass(l: Lexer, word: &mut [u8], b: u8) -> Lexer
    requires { length word.old ≡ longest }
    ensures is { scan_at result word.new ≡ plain_scan (scan_at l word.old) b }
    ensures stays { result.mode ≡ l.mode }
{
    let seen = deeper(l.seen);
    if is_gap(l.mode) {
        return Lexer {
            number: no_number(),
            seen,
            first: l.seen,
            ..l
        };
    }
    if is_figures(l.mode) {
        return Lexer {
            number: with_figure(l.number, b),
            seen,
            ..l
        };
    }
    if is_spelled(l.mode) {
        note(word, l.size, b);
        return Lexer {
            size: deeper(l.size),
            seen,
            ..l
        };
    }
    Lexer { seen, ..l }
}

// Passes over the plain bytes from `from` on. The mode stays, so it is copied once and not for each byte.
pub fn skip(l: Lexer, word: &mut [u8], text: &[u8], from: usize) -> Skipped
    requires { length word.old ≡ longest }
    ensures is { found (scan_at result.lexer word.new) (drop result.at text.now) ≡ found (scan_at l word.old) (drop from text.now) }
    ensures on { from ≤ result.at }
{
    let m = l.mode;
    let mut s = l;
    let mut i = from;
    // Kept: an index, for the place in the part is answered, and the reader goes on from there.
    while let Some(&b) = text.get(i) {
        if !is_plain(m, b) || BOUND <= s.seen {
            break;
        }
        i += 1;
        s = Lexer {
            mode: m,
            ..pass(s, word, b)
        };
    }
    Skipped { lexer: s, at: i }
}

// Passes over pairs of digits of a hexadecimal string from `from` on: each is a byte of the string, and leaves the
// mode as it is.
fn skip_pairs(l: Lexer, word: &mut [u8], text: &[u8], from: usize) -> Skipped
    requires { (length word.old ≡ longest) × (l.mode ≡ Mode.Hex) }
    ensures is { found (scan_at result.lexer word.new) (drop result.at text.now) ≡ found (scan_at l word.old) (drop from text.now) }
    ensures on { from ≤ result.at }
{
    let mut size = l.size;
    let mut seen = l.seen;
    let mut i = from;
    // Kept: an index, for it goes on by two bytes, from any place, and stops at what is no pair: `chunks_exact` answers no place.
    while let (Some(&a), Some(&b)) = (text.get(i), text.get(i.saturating_add(1))) {
        let (a, b) = (hex_of(a), hex_of(b));
        if 16 <= a || 16 <= b || BOUND - 1 <= seen {
            break;
        }
        note(word, size, hex_byte(a, b));
        size = deeper(size);
        seen += 2;
        i += 2;
    }
    Skipped {
        lexer: Lexer { size, seen, ..l },
        at: i,
    }
}

// Passes over bytes from `from` on that meet nothing: pairs of digits in a hexadecimal string, plain bytes elsewhere.
pub fn pass_over(l: Lexer, word: &mut [u8], text: &[u8], from: usize) -> Skipped
    requires { length word.old ≡ longest }
    ensures is { found (scan_at result.lexer word.new) (drop result.at text.now) ≡ found (scan_at l word.old) (drop from text.now) }
    ensures on { from ≤ result.at }
{
    match l.mode {
        Mode::Hex => skip_pairs(l, word, text, from),
        _ => skip(l, word, text, from),
    }
}

// Whether there are bytes to pass over in a mode. It spares a look where there are none, and what is found does not
// depend on it.
pub fn has_plain(m: Mode) -> bool {
    matches!(
        m,
        Mode::Gap | Mode::Comment | Mode::Regular | Mode::Name | Mode::Hex | Mode::Text(_)
    )
}
