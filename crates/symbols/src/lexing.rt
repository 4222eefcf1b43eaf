// The tokens of a text, one after the other.
ghost use Rattle.std.specs.Prelude.{◌≡◌, ◌≤◌, ◌&&◌, leb, false, not, length};
ghost use Rattle.std.specs.List.{position_or_len};
ghost use Rattle.lexical.specs.Chars.{regular};
ghost use Rattle.lexical.specs.Numbers.{number_of};
ghost use Rattle.symbols.specs.Symbols.{token_of};
ghost use Rattle.symbols.specs.Tokens.{word_token, brace_token};
ghost use Rattle.symbols.specs.Lexing.{skipped, Finds};

use crate::naming::named;
use crate::types::Symbol;
use lexical::{
    Number, is_line_end, is_number, is_regular, is_white, no_number, number_fits, value_of,
    with_figure,
};

// The number that a run of regular characters is, if it is one.
fn number_of(word: &[u8]) -> Number
    ensures { result ≡ number_of word.now }
{
    word.iter().fold(no_number(), |n, &b| with_figure(n, b))
}

// Whether a number may begin so: + - . and the digits stand here, with two that begin none.
fn begins_number(b: u8) -> bool
    ensures { result ≡ (leb 43 b && leb b 57) }
{
    matches!(b, b'+'..=b'9')
}

// The token of a run of regular characters. Most are names, which their first characters tell from numbers.
#[tactic(auto, unfolding(crate::specs::Tokens::word_token))]
fn word_token(word: &[u8]) -> Symbol
    ensures { token_of result ≡ word_token word.now }
{
    if let Some((&b, _)) = word.split_first() {
        if begins_number(b) {
            let n = number_of(word);
            if is_number(n.part) {
                return if number_fits(n) {
                    Symbol::Number(value_of(n))
                } else {
                    Symbol::Other
                };
            }
        }
    }
    named(word)
}

// The token of a delimiter.
#[tactic(auto, unfolding(crate::specs::Tokens::brace_token))]
fn brace_token(b: u8) -> Symbol
    ensures { token_of result ≡ brace_token b }
{
    match b {
        b'{' => Symbol::Open,
        b'}' => Symbol::Close,
        _ => Symbol::Other,
    }
}

// What follows white space and comments.
fn skip(text: &[u8]) -> &[u8]
    ensures { result.now ≡ skipped false text.now }
{
    let mut commented = false;
    for (i, &b) in text.iter().enumerate() {
        if commented {
            commented = !is_line_end(b);
        } else if b == b'%' {
            commented = true;
        } else if !is_white(b) {
            return &text[i..];
        }
    }
    &[]
}

// How many regular characters a text begins with.
fn run_length(text: &[u8]) -> usize
    ensures is { result ≡ position_or_len (λ b. not (regular b)) text.now }
    ensures within { result ≤ length text.now }
{
    text.iter()
        .position(|&b| !is_regular(b))
        .unwrap_or(text.len())
}

// The first token of a text, and the text after it.
pub fn next(text: &[u8]) -> Option<(Symbol, &[u8])>
    ensures { Finds text.now result }
{
    let text = skip(text);
    let (&b, rest) = text.split_first()?;
    if is_regular(b) {
        let (word, rest) = text.split_at(1 + run_length(rest));
        return Some((word_token(word), rest));
    }
    Some((brace_token(b), rest))
}
