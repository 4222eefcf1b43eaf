// A flat form on the values of a colour.
ghost use Rattle.std.specs.Prelude.{◌≡◌, ◌≤◌};
ghost use Rattle.fixed.specs.Values.{places};
ghost use Rattle.form.specs.Steps.{tints_in, tints_outside, results, form_values};

use fixed::{VALUES, is_outside, limit};
use stack::Stack;

// 1 in millionths.
const ONE: i32 = 1000000;

// The results replace the values from 0, the first the deepest of the top m; of more than there are values the first.
fn replace(stack: &Stack, m: usize, values: &mut [i32; VALUES])
    ensures { values.new ≡ results m stack.now values.old }
{
    for k in 0..m.min(VALUES) {
        values[k] = stack.value_at(m - 1 - k);
    }
}

// The first t values, each limited to 0..1, as a stack, the first deepest.
fn tints(values: &[i32; VALUES], t: usize) -> Stack
    requires { t ≤ places }
    ensures { result ≡ tints_in t values.now }
{
    let mut stack = Stack::new();
    for value in &values[..t] {
        stack.push(limit(*value, 0, ONE));
    }
    stack
}

// Whether one of the first t values lies outside 0..1.
pub fn is_moving(values: &[i32; VALUES], t: usize) -> bool
    requires { t ≤ places }
    ensures { result ≡ tints_outside t values.now }
{
    let mut moving = false;
    for value in &values[..t] {
        moving |= is_outside(*value, 0, ONE);
    }
    moving
}

// Runs a flat form on the first t values, each limited to 0..1; `count` results replace the values from 0.
pub fn run(words: &[i32], t: usize, count: usize, values: &mut [i32; VALUES])
    requires { t ≤ places }
    ensures { values.new ≡ form_values t count words.now values.old }
{
    let mut stack = tints(values, t);
    stack.run(words);
    replace(&stack, count, values);
}
