// The operand stack: an array, the deepest value first, and how many of it are on the stack. Clauses see the values, the top first.
ghost use Rattle.std.specs.Prelude.{◌≡◌, ◌≤◌, ◌+◌, ◌-◌, [], drop, length};
ghost use Rattle.std.specs.List.{slice_rotate_right};
ghost use Rattle.fixed.specs.Values.{value};
ghost use Rattle.stack.specs.Stack.{most, pushed, copied, rolled, turns};
ghost use Rattle.stack.specs.Memory.{stack_of};

use crate::MOST;
use std::marker::Model;

#[derive(Drop)]
pub struct Stack {
    items: [i32; MOST],
    height: usize,
}

impl Model for Stack {
    ghost use Rattle.std.specs.Prelude.{List, ℤ, ◌≤◌};
    ghost use Rattle.stack.specs.Stack.{most};
    ghost use Rattle.stack.specs.Memory.{stack_of};

    ghost Value = { List ℤ };

    ghost view = { λ s. stack_of s.items s.height };

    ghost invariant = { λ s. s.height ≤ most };
}

// The last k values go before the others. Three reversals do it in place: the library's rotation first makes room for thousands of bytes.
fn turn(values: &mut [i32], k: usize)
    requires { k ≤ length values.old }
    ensures { values.new ≡ slice_rotate_right values.old k }
{
    let (front, back) = values.split_at_mut(values.len() - k);
    front.reverse();
    back.reverse();
    values.reverse();
}

impl Stack {
    // An empty stack.
    #[tactic(auto, unfolding(crate::specs::Memory::stack_of))]
    pub fn new() -> Stack
        ensures { result ≡ [] }
    {
        Stack {
            items: [0; MOST],
            height: 0,
        }
    }

    // Takes all values off.
    #[tactic(auto, unfolding(crate::specs::Memory::stack_of))]
    pub fn clear(&mut self)
        ensures { self.new ≡ [] }
    {
        self.height = 0;
    }

    // The values, the deepest first.
    pub fn values(&self) -> &[i32]
        ensures is { stack_of result.now (length result.now) ≡ self.now }
        ensures most { length result.now ≤ most }
    {
        &self.items[..self.height]
    }

    // How many values it has.
    pub fn height(&self) -> usize
        ensures is { result ≡ length self.now }
        ensures most { result ≤ most }
    {
        self.height
    }

    // The value n below the top, 0 where there is none.
    // Kept: 0 is no sign that there is none, but what the definition `value` has below the stack.
    pub fn value_at(&self, n: usize) -> i32
        ensures { result ≡ value self.now n }
    {
        if n < self.height {
            self.items[self.height - 1 - n]
        } else {
            0
        }
    }

    // x on top; nothing where the stack is full.
    pub fn push(&mut self, x: i32)
        ensures { self.new ≡ pushed x self.old }
    {
        if self.height < MOST {
            self.items[self.height] = x;
            self.height += 1;
        }
    }

    // The top n, or all where there are fewer, are taken off.
    pub fn discard(&mut self, n: usize)
        ensures { self.new ≡ drop n self.old }
    {
        self.height = self.height.saturating_sub(n);
    }

    // The value n below the top, on top.
    pub fn index(&mut self, n: usize)
        ensures { self.new ≡ pushed (value self.old n) self.old }
    {
        let x = self.value_at(n);
        self.push(x);
    }

    // The top two, one in the place of the other.
    pub fn exchange(&mut self)
        ensures { self.new ≡ rolled 2 1 self.old }
    {
        if 2 <= self.height {
            self.items.swap(self.height - 1, self.height - 2);
        }
    }

    // The top n once more: n times the value n - 1 below the top. A copy within the array would need `memmove`, which a setter's board may lack.
    pub fn copy(&mut self, n: usize)
        ensures { self.new ≡ copied n self.old }
    {
        if n <= self.height && n <= MOST - self.height {
            for i in 0..n {
                self.index(n - 1);
            }
        }
    }

    // The top n, turned by j.
    pub fn roll(&mut self, n: usize, j: i32)
        ensures { self.new ≡ rolled n (turns j n) self.old }
    {
        if 0 < n && n <= self.height {
            let k = j.rem_euclid(n as i32) as usize;
            let from = self.height - n;
            let top = &mut self.items[from..self.height];
            turn(top, k);
        }
    }
}
