// The tokens of a dictionary: `<<`, keys, their values, `>>`; and an Indexed space's hival and palette.
ghost use Rattle.std.specs.Prelude.{◌≡◌, true, cond, List, ℕ, ◌+◌, ◌-◌, ◌*◌, ◌/◌, ◌<◌, ◌≤◌, eqb, ℤ, length, set};
ghost use Rattle.lexical.specs.Numbers.{fits, millionths};
ghost use Rattle.lexer.specs.Scans.{scan_at};
ghost use Rattle.keys.specs.Entries.{length_of};
ghost use Rattle.reader.specs.Spaces.{palette_size};
ghost use Rattle.reader.specs.Kept.{parser_at, sorted, took_at, Turns};
ghost use Rattle.reader.specs.Tokens.{took_dict, took_name, took_end, took_key, took_number, took_value, took_items, took_hival, took_lookup};

use crate::making::held;
use crate::types::{Entry, Head, Inner, Sort, Want};
use fixed::Refusal;
use keys::{entries, names};
use lexer::Lexer;
use lexical::Number;

// `<<`: every value at its default.
#[tactic(auto, unfolding(crate::specs::Tokens::took_dict, crate::specs::Tokens::begins))]
pub fn take_dict(h: Head, t: Sort, values: &mut [i32]) -> Result<Head, Refusal>
    requires { length values.old ≡ 30 }
    ensures { (marks names opens page : List ℕ) → took_at result values.new marks names opens page ≡ took_dict (parser_at h values.old marks names opens page) (sorted t) }
{
    match t {
        Sort::DictOpens => {
            entries::reset(values);
            let entry = Entry {
                key: 0,
                index: 0,
                mask: 0,
                exponent: 1,
            };
            Ok(Head {
                want: Want::Key,
                entry,
                ..h
            })
        }
        _ => Err(Refusal::Syntax),
    }
}

// A key.
#[tactic(auto, unfolding(crate::specs::Tokens::took_name, crate::specs::Tokens::keyed))]
fn take_name(h: Head, key: u32) -> Result<Head, Refusal>
    requires { key ≤ 10 }
    ensures { Turns h result (λ a. took_name a key) }
{
    let met = entries::is_met(h.entry.mask, key);
    if met || !entries::has_key(h.kind, key) {
        return Err(Refusal::Key);
    }
    let entry = Entry {
        key,
        index: 0,
        mask: entries::with_key(h.entry.mask, key),
        ..h.entry
    };
    Ok(Head {
        want: Want::Value,
        entry,
        ..h
    })
}

// `>>`.
#[tactic(auto, unfolding(crate::specs::Tokens::took_end))]
fn take_end(h: Head) -> Result<Head, Refusal>
    ensures { Turns h result took_end }
{
    if !entries::is_complete(h.kind, h.inner.count, h.entry.mask) {
        return Err(Refusal::Key);
    }
    Ok(Head {
        want: Want::Shut,
        ..h
    })
}

// A key or `>>`.
#[tactic(auto, unfolding(crate::specs::Tokens::took_key))]
pub fn take_key(h: Head, l: Lexer, t: Sort, word: &[u8]) -> Result<Head, Refusal>
    ensures { Turns h result (λ a. took_key a (scan_at l word.now) (sorted t)) }
{
    match t {
        Sort::Name => {
            let key = names::key_named(held(word, l.size));
            take_name(h, u32::from(key.unwrap_or(0)))
        }
        Sort::DictCloses => take_end(h),
        _ => Err(Refusal::Syntax),
    }
}

// How many numbers the value in hand is, or 0.
// Kept: 0 for a value with no brackets, as `length_of` of keys has it.
fn wanted(h: Head) -> u32
    ensures { result ≡ length_of h.kind h.inner.count h.entry.key }
{
    entries::length_of(h.kind, h.inner.count, h.entry.key)
}

// Stores a value, where it has a place.
fn put_value(values: &mut [i32], at: usize, v: i32)
    ensures { values.new ≡ set values.old at v }
{
    if at < values.len() {
        values[at] = v;
    }
}

// The exponent, which key 10 sets.
fn exponent_of(key: u32, n: Number, e: u8) -> u8
    requires { (fits n ≡ true) × (key ≡ 10 → millionths n / 1000000 ≤ 255) }
    ensures { result ≡ cond (eqb key 10) (millionths n / 1000000) e }
{
    match key {
        10 => lexical::whole(n) as u8,
        _ => e,
    }
}

// A number of a value.
#[tactic(auto, unfolding(crate::specs::Tokens::took_number, crate::specs::Tokens::valued))]
fn take_number(h: Head, n: Number, values: &mut [i32]) -> Result<Head, Refusal>
    ensures { (marks names opens page : List ℕ) → took_at result values.new marks names opens page ≡ took_number (parser_at h values.old marks names opens page) n }
{
    let e = h.entry;
    entries::number_fault(e.key, e.index, n)?;
    let at = entries::place_of(e.key) + e.index as usize;
    put_value(values, at, lexical::value_of(n));
    let entry = Entry {
        index: lexer::deeper(e.index),
        exponent: exponent_of(e.key, n, e.exponent),
        ..e
    };
    let want = match wanted(h) {
        0 => Want::Key,
        _ => Want::Items,
    };
    Ok(Head { want, entry, ..h })
}

// A value: a number, or `[`.
#[tactic(auto, unfolding(crate::specs::Tokens::took_value))]
pub fn take_value(h: Head, t: Sort, n: Number, values: &mut [i32]) -> Result<Head, Refusal>
    ensures { (marks names opens page : List ℕ) → took_at result values.new marks names opens page ≡ took_value (parser_at h values.old marks names opens page) (sorted t) n }
{
    let single = wanted(h) == 0;
    match t {
        Sort::Number if single => take_number(h, n, values),
        Sort::ArrayOpens if !single => Ok(Head {
            want: Want::Items,
            ..h
        }),
        _ => Err(Refusal::Syntax),
    }
}

// A number of an array, or `]`.
#[tactic(auto, unfolding(crate::specs::Tokens::took_items))]
pub fn take_item(h: Head, t: Sort, n: Number, values: &mut [i32]) -> Result<Head, Refusal>
    ensures { (marks names opens page : List ℕ) → took_at result values.new marks names opens page ≡ took_items (parser_at h values.old marks names opens page) (sorted t) n }
{
    let more = h.entry.index < wanted(h);
    match t {
        Sort::Number if more => take_number(h, n, values),
        Sort::ArrayCloses if !more => Ok(Head {
            want: Want::Key,
            ..h
        }),
        _ => Err(Refusal::Syntax),
    }
}

// An Indexed space's hival.
#[tactic(auto, unfolding(crate::specs::Tokens::took_hival, crate::specs::Tokens::with_hival))]
pub fn take_hival(h: Head, t: Sort, n: Number) -> Result<Head, Refusal>
    ensures { Turns h result (λ a. took_hival a (sorted t) n) }
{
    if t != Sort::Number {
        return Err(Refusal::Syntax);
    }
    if !lexical::number_fits(n) {
        return Err(Refusal::TextNumber);
    }
    if !lexical::is_whole(n, 0, 255) {
        return Err(Refusal::ClauseRule);
    }
    let hival = lexical::whole(n) as u16;
    Ok(Head {
        want: Want::Lookup,
        inner: Inner { hival, ..h.inner },
        ..h
    })
}

// The bytes of the palette.
pub fn palette_size(i: Inner) -> u32
    ensures is { result ≡ palette_size i }
    ensures small { result ≤ 16711680 }
{
    u32::from(i.count) * (u32::from(i.hival) + 1)
}

// Its palette.
#[tactic(auto, unfolding(crate::specs::Tokens::took_lookup))]
pub fn take_lookup(h: Head, l: Lexer, t: Sort) -> Result<Head, Refusal>
    ensures { (word : List ℕ) → Turns h result (λ a. took_lookup a (scan_at l word) (sorted t)) }
{
    if t != Sort::Text {
        return Err(Refusal::Syntax);
    }
    if l.size != palette_size(h.inner) {
        return Err(Refusal::RunOrSpareEntry);
    }
    Ok(Head {
        want: Want::Shut,
        ..h
    })
}
