// What an operator asks of the stack.
ghost use Rattle.std.specs.Prelude.{◌≡◌, ◌≤◌};
ghost use Rattle.stack.specs.Judging.{wants, grows, kindly, fine};
ghost use Rattle.stack.specs.Meant.{op_meant};

use stack::{MOST, Op, Stack, small};

// How high the stack must be.
fn needed(op: Op) -> usize
    ensures { result ≡ wants (op_meant op) }
{
    match op {
        Op::Number(_) | Op::Constant(_) => 0,
        Op::Copy(n) => small(n),
        Op::Index(n) => small(n) + 1,
        Op::Roll(n, _) => small(n),
        Op::Two(_) | Op::Exch => 2,
        Op::One(_) | Op::Pop | Op::Dup => 1,
    }
}

// How much higher it gets.
fn growth(op: Op) -> usize
    ensures is { result ≡ grows (op_meant op) }
    ensures low { result ≤ 4294967295 }
{
    match op {
        Op::Number(_) | Op::Index(_) | Op::Constant(_) | Op::Dup => 1,
        Op::Copy(n) => small(n),
        Op::Roll(..) | Op::Two(_) | Op::One(_) | Op::Pop | Op::Exch => 0,
    }
}

// Are the kinds of its operands right?
fn kindly(op: Op, stack: &Stack) -> bool
    ensures { result ≡ kindly (op_meant op) stack.now }
{
    match op {
        Op::Two(two) => stack.value_at(0) == two.takes() && stack.value_at(1) == two.takes(),
        Op::One(one) => stack.value_at(0) == one.kind(),
        _ => true,
    }
}

// Can the operator act on a stack of these kinds?
#[tactic(auto, unfolding(stack::specs::Judging::fine))]
pub fn fine(op: Op, stack: &Stack) -> bool
    ensures { result ≡ fine (op_meant op) stack.now }
{
    let h = stack.height();
    needed(op) <= h && h + growth(op) <= MOST && kindly(op, stack)
}
