// The state as words that the caller lends: any words are a state, and what was saved is loaded again.
ghost use Rattle.std.specs.Prelude.{◌≡◌, ◌+◌, ◌%◌, ◌≤◌, eqb, length, get_or};
ghost use Rattle.std.proofs.lemmas.List.Edits.{sets};
ghost use Rattle.states.specs.Words.{part_in, part_tag, want_in, want_tag, half, short, byte as low, flag as odd, number_in, lexer_in, head_in, state_in, lexer_words, head_words, LexerFits, HeadFits};

use crate::types::{Packed, State};
use lexer::{Lexer, Mode};
use lexical::{Number, Part};
use reader::{Entry, Head, Inner, Want};

// How many words are lent.
pub const WORDS: usize = 25;

// Any number past the last is the first.
#[tactic(auto, unfolding(crate::specs::Words::part_in))]
fn part_in(t: u32) -> Part
    ensures { result ≡ part_in t }
{
    match t {
        1 => Part::Sign,
        2 => Part::Digits,
        3 => Part::Point,
        4 => Part::Decimals,
        5 => Part::Keyword,
        _ => Part::Empty,
    }
}

fn part_tag(p: Part) -> u64
    ensures { result ≡ part_tag p }
{
    p as u64
}

#[tactic(auto, unfolding(crate::specs::Words::want_in))]
fn want_in(t: u32) -> Want
    ensures { result ≡ want_in t }
{
    match t {
        1 => Want::Family,
        2 => Want::Dict,
        3 => Want::Key,
        4 => Want::Value,
        5 => Want::Items,
        6 => Want::Shut,
        7 => Want::Space,
        8 => Want::Hival,
        9 => Want::Lookup,
        10 => Want::Ink,
        _ => Want::Top,
    }
}

fn want_tag(w: Want) -> u64
    ensures { result ≡ want_tag w }
{
    w as u64
}

fn word_at(w: &[u64], i: usize) -> u64
    ensures { result ≡ get_or w.now i 0 }
{
    w.get(i).copied().unwrap_or(0)
}

fn half_at(w: &[u64], i: usize) -> u32
    ensures { result ≡ half w.now i }
{
    (word_at(w, i) % 4294967296) as u32
}

fn short_at(w: &[u64], i: usize) -> u16
    ensures { result ≡ short w.now i }
{
    (word_at(w, i) % 65536) as u16
}

fn byte_at(w: &[u64], i: usize) -> u8
    ensures { result ≡ low w.now i }
{
    (word_at(w, i) % 256) as u8
}

fn flag_at(w: &[u64], i: usize) -> bool
    ensures { result ≡ odd w.now i }
{
    word_at(w, i) % 2 == 1
}

fn number_in(w: &[u64]) -> Number
    ensures { result ≡ number_in w.now }
{
    Number {
        part: part_in(half_at(w, 3)),
        minus: flag_at(w, 4),
        fine: flag_at(w, 5),
        raw: word_at(w, 6),
        after: half_at(w, 7),
    }
}

fn lexer_in(w: &[u64]) -> Lexer
    ensures { result ≡ lexer_in w.now }
{
    Lexer {
        mode: Mode::from(Packed::new(half_at(w, 0), half_at(w, 1), byte_at(w, 2))),
        number: number_in(w),
        size: half_at(w, 8),
        seen: half_at(w, 9),
        first: half_at(w, 10),
    }
}

fn entry_in(w: &[u64]) -> Entry
    ensures { result ≡ (head_in w.now).entry }
{
    Entry {
        key: half_at(w, 13),
        index: half_at(w, 14),
        mask: half_at(w, 15),
        exponent: byte_at(w, 16),
    }
}

fn inner_in(w: &[u64]) -> Inner
    ensures { result ≡ (head_in w.now).inner }
{
    Inner {
        count: byte_at(w, 17),
        code: short_at(w, 18),
        hival: short_at(w, 19),
    }
}

fn head_in(w: &[u64]) -> Head
    ensures { result ≡ head_in w.now }
{
    Head {
        want: want_in(half_at(w, 11)),
        kind: byte_at(w, 12),
        entry: entry_in(w),
        inner: inner_in(w),
        next: byte_at(w, 20),
        top: byte_at(w, 21),
        deep: byte_at(w, 22),
    }
}

// The state that any words are.
#[tactic(auto, unfolding(crate::specs::Words::state_in))]
pub fn load(w: &[u64]) -> State
    ensures { result ≡ state_in w.now }
{
    State {
        lexer: lexer_in(w),
        head: head_in(w),
        refusal: half_at(w, 23),
        place: half_at(w, 24),
    }
}

// The first 11 words: where the lexer stands.
fn lexer_words(l: Lexer) -> [u64; 11]
    ensures is { result ≡ lexer_words l }
    ensures fit { LexerFits l }
{
    let p = Packed::from(l.mode);
    let n = l.number;
    [
        u64::from(p.tag),
        u64::from(p.depth),
        u64::from(p.small),
        part_tag(n.part),
        u64::from(n.minus),
        u64::from(n.fine),
        n.raw,
        u64::from(n.after),
        u64::from(l.size),
        u64::from(l.seen),
        u64::from(l.first),
    ]
}

// The next 12: what the next token may be, and what is read of the space.
fn head_words(h: Head) -> [u64; 12]
    ensures is { result ≡ head_words h }
    ensures fit { HeadFits h }
{
    let e = h.entry;
    let i = h.inner;
    [
        want_tag(h.want),
        u64::from(h.kind),
        u64::from(e.key),
        u64::from(e.index),
        u64::from(e.mask),
        u64::from(e.exponent),
        u64::from(i.count),
        u64::from(i.code),
        u64::from(i.hival),
        u64::from(h.next),
        u64::from(h.top),
        u64::from(h.deep),
    ]
}

// Stores words from place at on.
fn put_words(w: &mut [u64], at: usize, from: &[u64])
    requires { at + length from.now ≤ length w.old }
    ensures { w.new ≡ sets w.old at from.now }
{
    w[at..at + from.len()].copy_from_slice(from);
}

// Stores a state in the words.
pub fn save(w: &mut [u64], s: State)
    requires { length w.old ≡ 25 }
    ensures { state_in w.new ≡ s }
{
    let a = lexer_words(s.lexer);
    let b = head_words(s.head);
    let c = [u64::from(s.refusal), u64::from(s.place)];
    put_words(w, 0, &a);
    put_words(w, 11, &b);
    put_words(w, 23, &c);
}
