// The C interface of a plate setter: running a recipe, and nothing else. What a reply is stands here too, for the whole interface in `sktelbaan`.
//
// A reply is 64 bits. Its low half is the number of a refusal, or 0. Its high half is then the block that the refusal is about, or else what the operation gives.
#![tactic(auto)]

ghost use Rattle.std.specs.Prelude.{◌≡◌};
ghost use Rattle.runner.specs.Runs.{ran};
ghost use Rattle.sktelbaan_runner.specs.Replies.{reply_of, floats_of};

mod answers;

pub use answers::{halves, put_answer};

// Runs a recipe on a colour's components. The reply gives 1 for Gray, 2 for RGB, 3 for CMYK, 4 for XYZ, 5 for no mark and 6 for every ink, with
// its one, three or four floats in `floats`, of no mark none, and sets its top bit where a limit moved anything; the others, and on a refusal all, stay as they were.
#[unsafe(no_mangle)]
pub extern "C" fn sktelbaan_run(words: &[i32], components: &[i32], floats: &mut [f64; 4]) -> u64
    ensures value { result ≡ reply_of (ran words.now components.now) }
    ensures floats_after { floats.new ≡ floats_of (ran words.now components.now) floats.old }
{
    put_answer(runner::run(words, components), floats)
}
