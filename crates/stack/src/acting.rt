// One operator on a stack of values, or of kinds.
ghost use Rattle.std.specs.Prelude.{◌≡◌};
ghost use Rattle.stack.specs.Stack.{unary, binary};
ghost use Rattle.stack.specs.Operators.{two_in, one_in, acted};
ghost use Rattle.stack.specs.Meant.{two_meant, one_meant, op_meant};

use crate::Stack;
use crate::items::small;
use crate::operators::{One, Op, Two, constant_of, number_of};

// Kept: `kinds` is the flag of the definitions (`acted kinds`); a type in its place would only give its two values names.
impl Stack {
    // An operator of two operands.
    #[tactic(auto, unfolding(crate::specs::Stack::binary))]
    fn two(&mut self, op: Two, kinds: bool)
        ensures { self.new ≡ binary (two_in kinds (two_meant op)) self.old }
    {
        let x = self.value_at(1);
        let y = self.value_at(0);
        self.discard(2);
        self.push(op.of(x, y, kinds));
    }

    // An operator of one operand.
    #[tactic(auto, unfolding(crate::specs::Stack::unary))]
    fn one(&mut self, op: One, kinds: bool)
        ensures { self.new ≡ unary (one_in kinds (one_meant op)) self.old }
    {
        let x = self.value_at(0);
        self.discard(1);
        self.push(op.of(x, kinds));
    }

    // Any operator.
    #[tactic(auto, unfolding(crate::specs::Operators::acted))]
    pub fn act(&mut self, op: Op, kinds: bool)
        ensures { self.new ≡ acted kinds (op_meant op) self.old }
    {
        match op {
            Op::Number(x) => self.push(number_of(x, kinds)),
            Op::Copy(n) => self.copy(small(n)),
            Op::Index(n) => self.index(small(n)),
            Op::Roll(n, j) => self.roll(small(n), j),
            Op::Two(two) => self.two(two, kinds),
            Op::One(one) => self.one(one, kinds),
            Op::Constant(b) => self.push(constant_of(b, kinds)),
            Op::Pop => self.discard(1),
            Op::Exch => self.exchange(),
            Op::Dup => self.index(0),
        }
    }
}
