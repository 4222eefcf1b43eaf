// Writing a recipe.
ghost use Rattle.std.specs.Prelude.{◌≡◌, ◌+◌, ◌≤◌, length};
ghost use Rattle.std.proofs.lemmas.List.Edits.{sets};
ghost use Rattle.space.specs.Pages.{space_at};
ghost use Rattle.space.specs.Levels.{space_in};
ghost use Rattle.parts.specs.Recipes.{steps_of};
ghost use Rattle.recipe.specs.SpaceWrites.{meaning, replied, words_after};

use cie::Closing;
use fixed::{Refusal, Refused};
use parts::{put_closing, put_ends, put_program, put_row, put_tint, word_of};
use space::{Level, count, level_at, plain_at, tinted_at};
use tables::words_in;

// The steps of a level's space, from `at` on. It calls itself on the level within, whose rank is lower.
fn put_steps(page: &[u8], l: Level, words: &mut [i32], at: usize)
    requires { at + length (steps_of (space_in page.now l)) ≤ length words.old }
    ensures { words.new ≡ sets words.old at (steps_of (space_in page.now l)) }
{
    match l {
        Level::Plain(c, q) => {
            put_ends(c, q, words, at);
        }
        Level::Blank(_) => {
            put_closing(Closing::NoMark, words, at);
        }
        Level::Separation(p) => {
            let s = plain_at(page, p.alternate);
            let next = put_tint(p, count(s), words, at);
            put_steps(page, s, words, next);
        }
        Level::Program {
            block,
            alternate,
            tints,
        } => {
            let s = plain_at(page, alternate);
            let next = put_program(page, block, tints, count(s), words, at);
            put_steps(page, s, words, next);
        }
        Level::Indexed { block, base, hival } => {
            let s = tinted_at(page, base);
            let next = put_row(page, block, hival, s, words, at);
            put_steps(page, s, words, next);
        }
    }
}

// Writes the recipe of the space at a number of a page: 8 where there is no space, then 10 where the words lent are too few. Words past the recipe
// stay as they were, and on a refusal all do.
pub fn write_space(page: &[u8], n: u32, words: &mut [i32]) -> Result<u32, Refused>
    ensures result_value { meaning result ≡ replied (space_at page.now n) words.old }
    ensures words_after { words.new ≡ words_after (space_at page.now n) words.old }
{
    let l = level_at(page, n);
    let m = count(l);
    if m == 0 {
        return Err(Refusal::NoSuchSpace.of_block(0));
    }
    let size = words_in(page, l);
    if words.len() < size as usize {
        return Err(Refusal::Room.of_block(0));
    }
    words[0] = word_of(m);
    put_steps(page, l, words, 1);
    Ok(size)
}
