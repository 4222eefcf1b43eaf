// Reading on from a place to the next token.
ghost use Rattle.std.specs.Prelude.{◌≡◌, List, ℕ, ◌+◌, ◌*◌, ◌<◌, ◌≤◌, length, set, drop};
ghost use Rattle.lexer.specs.Scans.{longest, met_by, moved_by, placed, counted, ended_scan, ended_met, joined_scan, joined_met, last_scan, last_met, is_nothing, found, scan_at, found_at};

use crate::ends::{end_mode, last_mode};
use crate::joins::join_mode;
use crate::moves::{deeper, is_gap};
use crate::plain::{has_plain, pass_over, skip};
use crate::types::{Event, Found, Lexed, Lexer, Met, Move};
use lexical::{no_number, with_figure};

// The bytes that are kept of a name or string.
pub const LONGEST: usize = 1024;

// The most bytes of a text.
pub const BOUND: u32 = u32::MAX;

// A byte of a name or string is noted, while there is room.
pub fn note(word: &mut [u8], n: u32, x: u8)
    ensures { word.new ≡ set word.old n x }
{
    let i = n as usize;
    if i < word.len() {
        word[i] = x;
    }
}

// What a move does, and what it meets.
#[tactic(auto, unfolding(crate::specs::Scans::after))]
fn hand(l: Lexer, word: &mut [u8], v: Move) -> Lexed
    requires { length word.old ≡ longest }
    ensures is { scan_at result.lexer word.new ≡ moved_by (scan_at l word.old) v }
    ensures meets { result.met ≡ met_by v.event }
{
    let met = met_by(v.event);
    let lexer = Lexer { mode: v.mode, ..l };
    match v.event {
        Event::Byte(x) => {
            note(word, l.size, x);
            let size = deeper(l.size);
            Lexed {
                lexer: Lexer { size, ..lexer },
                met,
            }
        }
        Event::Figure(b) => {
            let number = with_figure(l.number, b);
            Lexed {
                lexer: Lexer { number, ..lexer },
                met,
            }
        }
        Event::Quiet | Event::WellMade(_) | Event::Bad => Lexed { lexer, met },
    }
}

// What a byte ends.
fn end_byte(l: Lexer, word: &mut [u8], b: u8) -> Lexed
    requires { length word.old ≡ longest }
    ensures is { scan_at result.lexer word.new ≡ ended_scan (scan_at l word.old) b }
    ensures meets { result.met ≡ ended_met (scan_at l word.old) b }
{
    hand(l, word, end_mode(l.mode, b))
}

// Between tokens a byte may be the first of one.
#[tactic(auto, unfolding(crate::specs::Scans::placed, crate::specs::Scans::begun_word))]
fn place(l: Lexer, b: u8) -> Lexer
    ensures { (word : List ℕ) → scan_at result word ≡ placed (scan_at l word) b }
{
    if !is_gap(l.mode) {
        return l;
    }
    Lexer {
        number: no_number(),
        size: if matches!(b, b'/' | b'(' | b'<') {
            0
        } else {
            l.size
        },
        first: l.seen,
        ..l
    }
}

// One byte more was read.
fn count(l: Lexer) -> Lexer
    ensures { (word : List ℕ) → scan_at result word ≡ counted (scan_at l word) }
{
    let seen = deeper(l.seen);
    Lexer { seen, ..l }
}

// What a byte is a part of.
fn join_byte(l: Lexer, word: &mut [u8], b: u8) -> Lexed
    requires { length word.old ≡ longest }
    ensures is { scan_at result.lexer word.new ≡ joined_scan (scan_at l word.old) b }
    ensures meets { result.met ≡ joined_met (scan_at l word.old) b }
{
    let h = hand(place(l, b), word, join_mode(l.mode, b));
    Lexed {
        lexer: count(h.lexer),
        ..h
    }
}

fn is_nothing(m: Met) -> bool
    ensures { result ≡ is_nothing m }
{
    matches!(m, Met::Nothing)
}

fn met_by(e: Event) -> Met
    ensures { result ≡ met_by e }
{
    match e {
        Event::Quiet | Event::Byte(_) | Event::Figure(_) => Met::Nothing,
        Event::WellMade(t) => Met::Complete(t),
        Event::Bad => Met::Wrong,
    }
}

// The same from a byte that is not plain, or from any other.
fn look(l: Lexer, word: &mut [u8], text: &[u8], from: usize) -> Found
    requires { length word.old ≡ longest }
    ensures { found_at result word.new text.now ≡ found (scan_at l word.old) (drop from text.now) }
{
    let mut s = l;
    let mut i = from;
    // Kept: an index, for each turn goes as far as `pass_over` went.
    while let Some(&b) = text.get(i) {
        if BOUND <= s.seen {
            return Found {
                lexer: s,
                met: Met::Past,
                at: i,
            };
        }
        let e = end_byte(s, word, b);
        if !is_nothing(e.met) {
            return Found {
                lexer: e.lexer,
                met: e.met,
                at: i,
            };
        }
        i += 1;
        let j = join_byte(e.lexer, word, b);
        if !is_nothing(j.met) {
            return Found {
                lexer: j.lexer,
                met: j.met,
                at: i,
            };
        }
        s = j.lexer;
        if has_plain(s.mode) {
            let r = pass_over(s, word, text, i);
            s = r.lexer;
            i = r.at;
        }
    }
    Found {
        lexer: s,
        met: Met::Nothing,
        at: i,
    }
}

// Reads a part of a text from `from` on, up to the first thing that is met.
// Kept: (l, word, text, from), the two sides of the clause `found (scan_at l word) (drop from text)`: a struct of them would be taken apart in it.
pub fn find(l: Lexer, word: &mut [u8], text: &[u8], from: usize) -> Found
    requires { length word.old ≡ longest }
    ensures { found_at result word.new text.now ≡ found (scan_at l word.old) (drop from text.now) }
{
    let r = skip(l, word, text, from);
    look(r.lexer, word, text, r.at)
}

// What the end of the text ends.
pub fn finish(l: Lexer) -> Lexed
    ensures is { (word : List ℕ) → scan_at result.lexer word ≡ last_scan (scan_at l word) }
    ensures meets { (word : List ℕ) → result.met ≡ last_met (scan_at l word) }
{
    let v = last_mode(l.mode);
    Lexed {
        lexer: Lexer { mode: v.mode, ..l },
        met: met_by(v.event),
    }
}
