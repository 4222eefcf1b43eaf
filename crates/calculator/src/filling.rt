// How a run of program blocks is filled.
ghost use Rattle.std.specs.Prelude.{◌≡◌, false};
ghost use Rattle.calculator.specs.Calculator.{tidy, filled_run};

use crate::BLOCKS;
use octets::byte_at;
use program::text_end;
use record::ROOM;

// Do only zeros follow a zero byte?
fn is_tidy(text: &[u8]) -> bool
    ensures { result ≡ tidy false text.now }
{
    text[text_end(text)..].iter().all(|&b| b == 0)
}

// Is a run of so many blocks with these bytes filled as it must be?
#[tactic(auto, unfolding(crate::specs::Calculator::filled_run))]
pub fn is_filled(blocks: u32, text: &[u8]) -> bool
    ensures { result ≡ filled_run blocks text.now }
{
    1 <= blocks && blocks <= BLOCKS && byte_at(text, 0, ROOM * (blocks - 1)) != 0 && is_tidy(text)
}
