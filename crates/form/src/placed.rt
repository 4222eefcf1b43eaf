// A flat form that stands among a recipe's words. By its hint the function stays one of its own when it is compiled: the checker's table takes memory only
// while a step 12 or 13 is checked, and none in a recipe without one.
ghost use Rattle.std.specs.Prelude.{◌≡◌};
ghost use Rattle.form.specs.Steps.{form_at};

use crate::checking::is_form;

// Are the n words from `at` on there, and a flat form that takes `taken` values, 1 to 8, and leaves `count` numbers, 1 to 4? What follows them is left out.
#[inline(never)]
pub fn is_form_at(words: &[i32], at: usize, n: usize, taken: usize, count: usize) -> bool
    ensures { result ≡ form_at words.now at n taken count }
{
    if words.len() < at || words.len() - at < n {
        return false;
    }
    is_form(&words[at..at + n], taken, count)
}
