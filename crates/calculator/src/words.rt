// The words of a text's program.
ghost use Rattle.std.specs.Prelude.{◌≡◌, ◌≤◌, length};
ghost use Rattle.program.specs.Texts.{read_of};
ghost use Rattle.fixed.specs.Values.{places};
ghost use Rattle.form.specs.Steps.{program_step};
ghost use Rattle.calculator.specs.Calculator.{code_in, words_by, put_at};

use fixed::Colour;
use program::Words;

// The words, from `at` on, where there is room for them.
fn put_fitting(words: &[i32], out: &mut [i32], at: usize)
    ensures { out.new ≡ put_at out.old at words.now }
{
    if at <= out.len() && words.len() <= out.len() - at {
        out[at..at + words.len()].copy_from_slice(words);
    }
}

// Puts the words of a text's program; none where it has none.
fn compile(text: &[u8], words: &mut Words)
    ensures { words.new ≡ words_by (read_of text.now) }
{
    if program::compile(text, words).is_none() {
        words.clear();
    }
}

// How many words the program of a text has.
pub fn size(text: &[u8]) -> usize
    ensures { result ≡ length (words_by (read_of text.now)) }
{
    let mut words = Words::new();
    compile(text, &mut words);
    words.len()
}

// Puts the words of a text's program from `at` on, where there is room for them, and says how many they are.
pub fn put_words(text: &[u8], out: &mut [i32], at: usize) -> usize
    ensures is { result ≡ length (words_by (read_of text.now)) }
    ensures stores { out.new ≡ put_at out.old at (words_by (read_of text.now)) }
{
    let mut words = Words::new();
    compile(text, &mut words);
    put_fitting(words.as_slice(), out, at);
    words.len()
}

// The colour after a text's program, which takes `taken` values and whose `count` results replace the values from 0.
pub fn step(text: &[u8], taken: usize, count: usize, c: Colour) -> Colour
    requires { taken ≤ places }
    ensures { result ≡ program_step taken count (code_in (read_of text.now)) c }
{
    let mut words = Words::new();
    compile(text, &mut words);
    let mut values = c.values;
    let out = tinting::step(words.as_slice(), 0, words.len(), taken, count, &mut values);
    Colour {
        values,
        moved: c.moved | out,
    }
}
