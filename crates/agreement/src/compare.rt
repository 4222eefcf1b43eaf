// A recipe written into the words lent, then run with just those words, and the same colour on the page.
ghost use Rattle.std.specs.Prelude.{◌≡◌};
ghost use Rattle.agreement.specs.Compared.{agreed};
ghost use Rattle.cie.specs.Answers.{meaning};
ghost use Rattle.colour.specs.Evaluating.{evaluated};
ghost use Rattle.recipe.specs.SpaceWrites.{meaning as wrote};
ghost use Rattle.recipe.specs.PageWrites.{write_reply, write_words};

use crate::Replies;
use cie::Answered;
use colour::evaluate;
use recipe::write;
use runner::run;

// Writes the recipe of the space at a number, runs just its words on the components, and evaluates them on the page. Whenever the recipe is written, which is
// exactly when `write_reply` says, the two replies are equal; else `ran` is the refusal.
pub fn compare_replies(
    page: &[u8],
    reference: u32,
    components: &[i32],
    words: &mut [i32],
) -> Replies
    ensures writes { wrote result.written ≡ write_reply page.now reference words.old }
    ensures leaves { words.new ≡ write_words page.now reference words.old }
    ensures evaluates { meaning result.evaluated ≡ evaluated page.now reference components.now }
    ensures agrees { meaning result.ran ≡ agreed (wrote result.written) (meaning result.evaluated) }
{
    let evaluated = evaluate(page, reference, components);
    let written = write(page, reference, words);
    let ran = match written {
        Ok(n) => run(&words[..n as usize], components),
        Err(refused) => Answered::from(refused),
    };
    Replies {
        written,
        ran,
        evaluated,
    }
}
