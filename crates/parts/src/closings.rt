// The words of a closing step.
ghost use Rattle.std.specs.Prelude.{◌≡◌, ◌+◌, ◌≤◌, length};
ghost use Rattle.std.proofs.lemmas.List.Edits.{sets};
ghost use Rattle.cie.specs.declared.Closing.TheVariants.{CalRgb};
ghost use Rattle.parts.specs.Recipes.{closing_words};

use crate::stores::put;
use cie::{Closing, RgbClosing};

// Three gammas, and the matrix in the record's order.
fn put_rgb(k: RgbClosing, words: &mut [i32], at: usize)
    requires { at + 13 ≤ length words.old }
    ensures { words.new ≡ sets words.old at (closing_words (CalRgb k)) }
{
    let some = [
        8, k.ga, k.gb, k.gc, k.xa, k.ya, k.za, k.xb, k.yb, k.zb, k.xc, k.yc, k.zc,
    ];
    put(words, at, &some);
}

// Stores a closing step from `at` on.
pub fn put_closing(k: Closing, words: &mut [i32], at: usize)
    requires { at + length (closing_words k) ≤ length words.old }
    ensures { words.new ≡ sets words.old at (closing_words k) }
{
    match k {
        Closing::Nothing => {}
        Closing::Gray => words[at] = 4,
        Closing::Rgb => words[at] = 5,
        Closing::Cmyk => words[at] = 6,
        Closing::CalGray(g) => put(words, at, &[7, g.xw, g.zw, g.gamma]),
        Closing::CalRgb(g) => put_rgb(g, words, at),
        Closing::Lab(g) => put(words, at, &[9, g.xw, g.zw]),
        Closing::NoMark => words[at] = 10,
        Closing::EveryInk => words[at] = 11,
    }
}
