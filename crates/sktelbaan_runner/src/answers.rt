// An answer as a reply and four floats.
ghost use Rattle.std.specs.Prelude.{◌≡◌, [], ◌∷◌, ◌+◌, ◌≤◌};
ghost use Rattle.std.proofs.lemmas.List.Edits.{sets};
ghost use Rattle.cie.specs.Answers.{said, meaning};
ghost use Rattle.sktelbaan_runner.specs.Replies.{in_halves, moved_bit, reply_of, floats_of};

use cie::{Answer, Answered};

// A reply of two halves.
pub fn halves(low: u32, high: u32) -> u64
    ensures { result ≡ in_halves low high }
{
    (high as u64) * 4294967296 + (low as u64)
}

fn put_three(floats: &mut [f64; 4], a: f64, b: f64, c: f64)
    ensures { floats.new ≡ sets floats.old 0 (a ∷ b ∷ c ∷ []) }
{
    floats[0] = a;
    floats[1] = b;
    floats[2] = c;
}

// The code of what an answer is in, with the top bit beside it.
fn coded(code: u32, moved: bool) -> u64
    requires { code ≤ 6 }
    ensures { result ≡ in_halves 0 (code + moved_bit moved) }
{
    if moved {
        return halves(0, code + 2147483648);
    }
    halves(0, code)
}

// Puts an answer's floats, and gives the reply; of a refusal its number and block, and no float is put.
fn put_said(a: Answer, moved: bool, floats: &mut [f64; 4]) -> u64
    ensures value { result ≡ reply_of (said a moved) }
    ensures floats_after { floats.new ≡ floats_of (said a moved) floats.old }
{
    match a {
        Answer::Gray(g) => {
            floats[0] = g;
            coded(1, moved)
        }
        Answer::Rgb(r, g, b) => {
            put_three(floats, r, g, b);
            coded(2, moved)
        }
        Answer::Cmyk(c, m, y, k) => {
            *floats = [c, m, y, k];
            coded(3, moved)
        }
        Answer::Xyz(p) => {
            put_three(floats, p.x, p.y, p.z);
            coded(4, moved)
        }
        Answer::NoMark => coded(5, moved),
        Answer::EveryInk(t) => {
            floats[0] = t;
            coded(6, moved)
        }
        Answer::Refused(e) => halves(e.refusal.number(), e.block),
    }
}

// The same of an answer and its flag.
pub fn put_answer(r: Answered, floats: &mut [f64; 4]) -> u64
    ensures value { result ≡ reply_of (meaning r) }
    ensures floats_after { floats.new ≡ floats_of (meaning r) floats.old }
{
    put_said(r.answer, r.moved, floats)
}
