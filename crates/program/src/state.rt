// How far a text is read.
ghost use Rattle.std.specs.Prelude.{◌≡◌, [], ◌∷◌, ◌<◌, length};
ghost use Rattle.std.specs.Option.{MatchOption};
ghost use Rattle.program.specs.Outers.{outer_by};

use std::marker::Model;

// The last numbers, which may yet be counts.
#[derive(Clone, Copy, Debug, PartialEq, Eq)]
pub enum Held {
    Nothing,
    One(i32),
    Two(i32, i32),
}

// The closed pairs of braces that wait for their if or ifelse, by where the jumps before them stand.
#[derive(Clone, Copy, Debug, PartialEq, Eq)]
pub enum Waiting {
    Nothing,
    One(u16),
    Two(u16, u16),
}

// How far: between two tokens of a level, the outer pair is closed, or the text is no program.
#[derive(Clone, Copy, Debug, PartialEq, Eq)]
pub enum State {
    Within { waiting: Waiting, held: Held },
    Whole,
    Refused,
}

// Between two tokens, where nothing waits: so a pair begins.
pub const PLAIN: State = State::Within {
    waiting: Waiting::Nothing,
    held: Held::Nothing,
};

// An open pair, by where its jump stands: the first, or the second after one whose jump stands at the first place.
#[derive(Clone, Copy, Debug, PartialEq, Eq)]
pub enum Outer {
    First(u16),
    Second(u16, u16),
}

// The pairs that are open inside the outer one, the innermost first.
#[derive(Drop)]
pub struct Outers {
    pairs: [Outer; 8],
    depth: usize,
}

impl Model for Outers {
    ghost use Rattle.std.specs.Prelude.{List, ◌≤◌};
    ghost use Rattle.program.specs.Words.{Outer};

    ghost Value = { List Outer };

    ghost use Rattle.program.specs.Outers.{outers_by};

    ghost view = { λ s. outers_by s.pairs s.depth };

    ghost invariant = { λ s. s.depth ≤ 8 };
}

impl Outers {
    // None.
    #[tactic(auto, unfolding(crate::specs::Outers::outers_by))]
    pub fn new() -> Self
        ensures { result ≡ [] }
    {
        Outers {
            pairs: [Outer::First(0); 8],
            depth: 0,
        }
    }

    // How many they are.
    pub fn len(&self) -> usize
        ensures { result ≡ length self.now }
    {
        self.depth
    }

    // One more.
    pub fn push(&mut self, pair: Outer)
        requires { length self.old < 8 }
        ensures { self.new ≡ outer_by pair ∷ self.old }
    {
        self.pairs[self.depth] = pair;
        self.depth += 1;
    }

    // The innermost, which is closed.
    pub fn pop(&mut self) -> Option<Outer>
        ensures { MatchOption result ((self.old ≡ []) × (self.new ≡ [])) (λ o. self.old ≡ outer_by o ∷ self.new) }
    {
        if self.depth == 0 {
            return None;
        }
        self.depth -= 1;
        Some(self.pairs[self.depth])
    }
}
