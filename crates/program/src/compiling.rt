// From a text to the words of its flat form.
ghost use Rattle.std.specs.Prelude.{◌≡◌, ◌≤◌, eqb, length};
ghost use Rattle.std.specs.List.{position_or_len};
ghost use Rattle.symbols.specs.Tokens.{gap, lexed};
ghost use Rattle.program.specs.Texts.{read_tokens, read_of};
ghost use Rattle.program.specs.Kept.{wanted, built_by};

use crate::state::{Outers, PLAIN, State};
use crate::tokens::token;
use crate::words::Words;
use fixed::TOKENS;
use symbols::{Symbol, next};

// Puts the words of the program that the tokens of a text are; none where they are no program.
fn compile_text(text: &[u8], words: &mut Words) -> Option<()>
    ensures { built_by result words.new ≡ wanted (read_tokens (lexed gap text.now)) }
{
    let (first, mut text) = next(text)?;
    let Symbol::Open = first else {
        return None;
    };
    words.clear();
    let mut outers = Outers::new();
    let mut state = PLAIN;
    let mut count: usize = 1;
    while let Some((symbol, rest)) = next(text) {
        if TOKENS <= count {
            return None;
        }
        state = token(words, &mut outers, state, symbol);
        text = rest;
        count += 1;
    }
    match state {
        State::Whole => Some(()),
        _ => None,
    }
}

// Where a text ends: at its first zero byte.
pub fn text_end(bytes: &[u8]) -> usize
    ensures is { result ≡ position_or_len (λ b. eqb b 0) bytes.now }
    ensures within { result ≤ length bytes.now }
{
    bytes.iter().position(|&b| b == 0).unwrap_or(bytes.len())
}

// Puts the words of the program whose text stands in the bytes of a run; none where it has no program.
pub fn compile(bytes: &[u8], words: &mut Words) -> Option<()>
    ensures { built_by result words.new ≡ wanted (read_of bytes.now) }
{
    compile_text(&bytes[..text_end(bytes)], words)
}
