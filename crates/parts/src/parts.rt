// The parts of a recipe: the limits and the closing step of a plain space, step 2 of an Indexed, step 3 of a Separation or step 12 of its program.
ghost use Rattle.std.specs.Prelude.{◌≡◌, ◌+◌, ◌*◌, ◌<◌, ◌≤◌, [], ◌∷◌, ◌++◌, length};
ghost use Rattle.form.specs.Steps.{head_words};
ghost use Rattle.std.proofs.lemmas.List.Edits.{sets};
ghost use Rattle.fixed.specs.Numbers.{OverOne};
ghost use Rattle.fixed.specs.Values.{places, widest, value, listed};
ghost use Rattle.space.specs.Spaces.{Space};
ghost use Rattle.space.specs.Pages.{entries, entry_of};
ghost use Rattle.space.specs.Levels.{plain_in, space_in, Ends, Ranged};
ghost use Rattle.parts.specs.Recipes.{limits_of, ends_of};
ghost use Rattle.calculator.specs.Calculator.{code_after};
ghost use Rattle.parts.specs.Parts.{row_words, tint_words, program_words};

use crate::closings::put_closing;
use crate::stores::{put, word_of};
use calculator::{program_run, put_run};
use cie::Closing;
use fixed::over_one;
use form::{Tints, nearest_count};
use record::{Ranges, Separation, entries_of};
use space::{Bounds, Level, bounds_of, count, limit_count, plain_bounds};
use tables::{entry, head_size};

// The first `size` entries of the table of the Indexed block n, over a space of m components, whose ranges have these bounds; `table` has the values over 0..1.
// Kept: `size` is how many entries the table has, and no length: the words lent have more.
fn put_table(
    page: &[u8],
    table: &[u32],
    n: u16,
    m: u32,
    bounds: Bounds,
    size: u32,
    words: &mut [i32],
    at: usize,
)
    requires { (size ≤ entries) × (at + size ≤ length words.old) × (0 < m) × (m ≤ places) × OverOne table.now }
    ensures { (s : Space) → Ranged s m bounds.lo bounds.hi → words.new ≡ sets words.old at (listed (entry_of page.now n s) size) }
{
    let mut k: u32 = 0;
    for j in 0..size {
        words[at + j as usize] = entry(page, table, n, k as usize, bounds, j);
        k += 1;
        if k == m {
            k = 0;
        }
    }
}

// The same. The values over 0..1 are made where the first range ends at 1: a Lab's does not, and has no use for them.
#[tactic(auto, unfolding(fixed::specs::Numbers::OverOne))]
fn put_rows(page: &[u8], n: u16, m: u32, bounds: Bounds, size: u32, words: &mut [i32], at: usize)
    requires { (size ≤ entries) × (at + size ≤ length words.old) × (0 < m) × (m ≤ places) }
    ensures { (s : Space) → Ranged s m bounds.lo bounds.hi → words.new ≡ sets words.old at (listed (entry_of page.now n s) size) }
{
    if bounds.hi[0] == 1000000 {
        put_table(page, &over_one(), n, m, bounds, size, words, at);
        return;
    }
    put_table(page, &[], n, m, bounds, size, words, at);
}

// The first m entries of C0 or C1.
fn put_entries(a: [i32; 4], m: u32, words: &mut [i32], at: usize)
    requires { (m ≤ widest) × (at + m ≤ length words.old) }
    ensures { words.new ≡ sets words.old at (listed (value a) m) }
{
    put(words, at, &a[..m as usize]);
}

// The limits of the first m components, whose ranges have these bounds.
fn put_limits(m: u32, bounds: Bounds, words: &mut [i32], at: usize)
    requires { (m ≤ places) × (at + 4 * m ≤ length words.old) }
    ensures { (s : Space) → Ends s bounds.lo bounds.hi → words.new ≡ sets words.old at (limits_of s m) }
{
    for k in 0..m {
        let i = k as usize;
        put(
            words,
            at + 4 * i,
            &[1, word_of(k), bounds.lo[i], bounds.hi[i]],
        );
    }
}

// The limits and the closing step of a plain space.
pub fn put_ends(c: Closing, q: Ranges, words: &mut [i32], at: usize)
    requires { at + length (ends_of (plain_in c q)) ≤ length words.old }
    ensures { words.new ≡ sets words.old at (ends_of (plain_in c q)) }
{
    let m = limit_count(c);
    put_limits(m, plain_bounds(c, q), words, at);
    put_closing(c, words, at + 4 * m as usize);
}

// Step 2 of the Indexed block n over its base s, from `at` on; the place after it.
pub fn put_row(page: &[u8], n: u16, hival: u16, s: Level, words: &mut [i32], at: usize) -> usize
    requires { at + length (row_words page.now n hival (space_in page.now s)) ≤ length words.old }
    ensures stores { words.new ≡ sets words.old at (row_words page.now n hival (space_in page.now s)) }
    ensures next { result ≡ at + length (row_words page.now n hival (space_in page.now s)) }
{
    let m = count(s);
    let h = hival as u32;
    put(words, at, &[2, word_of(m), word_of(h)]);
    if m == 0 {
        return at + 3;
    }
    let size = m * (h + 1);
    put_rows(page, n, m, bounds_of(s), size, words, at + 3);
    at + 3 + size as usize
}

// Step 3 of a Separation over an alternate of m components, from `at` on; the place after it.
pub fn put_tint(p: Separation, m: u32, words: &mut [i32], at: usize) -> usize
    requires { (m ≤ widest) × (at + length (tint_words p m) ≤ length words.old) }
    ensures stores { words.new ≡ sets words.old at (tint_words p m) }
    ensures next { result ≡ at + length (tint_words p m) }
{
    put(words, at, &[3, word_of(p.exponent as u32), word_of(m)]);
    put_entries(entries_of(p.c0), m, words, at + 3);
    put_entries(entries_of(p.c1), m, words, at + 3 + m as usize);
    at + 3 + 2 * m as usize
}

// The words before a program's flat form: 12, or 13 and how many values it takes, then how many numbers it leaves, and how many words follow.
fn put_head(tints: Tints, m: i32, size: i32, words: &mut [i32], at: usize)
    requires { at + (length (head_words tints) + 2) ≤ length words.old }
    ensures { words.new ≡ sets words.old at (head_words tints ++ (m ∷ size ∷ [])) }
{
    match tints {
        Tints::One => put(words, at, &[12, m, size]),
        Tints::Inks(n) => put(words, at, &[13, word_of(nearest_count(n)), m, size]),
    }
}

// Step 12 of the Separation in block n, or step 13 of the DeviceN, with the program after it, over an alternate of m components, from `at` on; the place after it.
pub fn put_program(page: &[u8], n: u16, tints: Tints, m: u32, words: &mut [i32], at: usize) -> usize
    requires { (m ≤ places) × (at + length (program_words tints (code_after page.now n) m) ≤ length words.old) }
    ensures stores { words.new ≡ sets words.old at (program_words tints (code_after page.now n) m) }
    ensures next { result ≡ at + length (program_words tints (code_after page.now n) m) }
{
    let head = head_size(tints) as usize;
    let size = put_run(page, n, program_run(page, n), words, at + head);
    put_head(tints, word_of(m), word_of(size as u32), words, at);
    at + head + size
}
