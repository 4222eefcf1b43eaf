// A colour on a page that is validated first.
ghost use Rattle.std.specs.Prelude.{◌≡◌};
ghost use Rattle.cie.specs.Answers.{meaning};
ghost use Rattle.colour.specs.Evaluating.{evaluated};

use crate::answers::evaluate_space;
use cie::Answered;
use page::validate;

// Evaluates a colour of the space at a number of a page: a block's number, or a device code. The refusal of validation, then 8, then 9, then the answer and
// whether a limit moved anything.
pub fn evaluate(page: &[u8], reference: u32, components: &[i32]) -> Answered
    ensures { meaning result ≡ evaluated page.now reference components.now }
{
    match validate(page) {
        Ok(()) => evaluate_space(page, reference, components),
        Err(refused) => Answered::from(refused),
    }
}
