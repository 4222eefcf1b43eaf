// The static library of a plate setter, libsktelbaan_runner.a: the function of `sktelbaan_runner` under its plain name, with its contract, for C to link.
#![tactic(auto)]

ghost use Rattle.std.specs.Prelude.{◌≡◌};
ghost use Rattle.runner.specs.Runs.{ran};
ghost use Rattle.sktelbaan_runner.specs.Replies.{reply_of, floats_of};

// Runs a recipe on a colour's components. The reply gives 1 for Gray, 2 for RGB, 3 for CMYK, 4 for XYZ, 5 for no mark and 6 for every ink, with
// its one, three or four floats in `floats`, of no mark none, and sets its top bit where a limit moved anything; the others, and on a refusal all, stay as they were.
#[unsafe(no_mangle)]
pub extern "C" fn sktelbaan_run(words: &[i32], components: &[i32], floats: &mut [f64; 4]) -> u64
    ensures value { result ≡ reply_of (ran words.now components.now) }
    ensures floats_after { floats.new ≡ floats_of (ran words.now components.now) floats.old }
{
    sktelbaan_runner::sktelbaan_run(words, components, floats)
}
