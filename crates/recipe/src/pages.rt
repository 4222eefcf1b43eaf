// The recipe of a space on a page that is validated first.
ghost use Rattle.std.specs.Prelude.{◌≡◌};
ghost use Rattle.recipe.specs.SpaceWrites.{meaning};
ghost use Rattle.recipe.specs.PageWrites.{write_reply, write_words};

use crate::writing::write_space;
use fixed::Refused;
use page::validate;

// Writes the recipe of the space at a number of a page, a block's number or a device code, from the first of `words` on. The refusal of validation, then 8, then
// 10, then its count of words. Words past the recipe, and on a refusal all, stay as they were.
pub fn write(page: &[u8], reference: u32, words: &mut [i32]) -> Result<u32, Refused>
    ensures result_value { meaning result ≡ write_reply page.now reference words.old }
    ensures words_after { words.new ≡ write_words page.now reference words.old }
{
    validate(page)?;
    write_space(page, reference, words)
}
