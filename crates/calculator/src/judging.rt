// Judging a calculator text.
ghost use Rattle.std.specs.Prelude.{◌≡◌, cond};
ghost use Rattle.fixed.specs.Refusals.{refused_with};
ghost use Rattle.form.specs.Steps.{well_formed};
ghost use Rattle.calculator.specs.Calculator.{refusal_of};

use fixed::Refusal;
use form::is_form;
use program::Words;

// Whether words are a flat form that takes `taken` values and leaves `count` numbers.
fn judge_form(words: &[i32], taken: usize, count: usize) -> Result<(), Refusal>
    ensures { refused_with result ≡ cond (well_formed words.now taken count) 0 17 }
{
    if is_form(words, taken, count) {
        Ok(())
    } else {
        Err(Refusal::ProgramStack)
    }
}

// What a calculator text whose program is to take `taken` values and leave `count` numbers is refused with: for its text, and then for its stack. The text
// goes to the first zero byte.
pub fn judge(text: &[u8], taken: usize, count: usize) -> Result<(), Refusal>
    ensures { refused_with result ≡ refusal_of taken count text.now }
{
    let mut words = Words::new();
    program::compile(text, &mut words).ok_or(Refusal::ProgramText)?;
    judge_form(words.as_slice(), taken, count)
}
