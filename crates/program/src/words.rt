// The words of a flat form, one put after the other, and those that are set later.
ghost use Rattle.std.specs.Prelude.{◌≡◌, List, ℕ, ℤ, [], ◌∷◌, ◌++◌, ◌≤◌, ◌<◌, ◌+◌, take, set, length};

use crate::ROOM;
use std::marker::Model;

// The words so far: at most `ROOM`.
#[derive(Drop)]
pub struct Words {
    room: [i32; ROOM],
    count: usize,
}

impl Model for Words {
    ghost Value = { List ℤ };

    ghost view = { λ w. take w.count w.room };

    ghost invariant = { λ w. w.count ≤ 800 };
}

impl Words {
    // No words.
    pub fn new() -> Self
        ensures { result ≡ [] }
    {
        Words {
            room: [0; ROOM],
            count: 0,
        }
    }

    // All of them.
    pub fn as_slice(&self) -> &[i32]
        ensures is { result.now ≡ self.now }
        ensures few { length self.now ≤ 800 }
    {
        &self.room[..self.count]
    }

    // How many they are.
    pub fn len(&self) -> usize
        ensures is { result ≡ length self.now }
        ensures few { result ≤ 800 }
    {
        self.count
    }

    // None again.
    pub fn clear(&mut self)
        ensures { self.new ≡ [] }
    {
        self.count = 0;
    }

    // A word more.
    pub(crate) fn put(&mut self, v: i32)
        requires { length self.old < 800 }
        ensures { self.new ≡ self.old ++ v ∷ [] }
    {
        self.room[self.count] = v;
        self.count += 1;
    }

    // Two words more.
    pub(crate) fn put_two(&mut self, v: i32, z: i32)
        requires { length self.old + 1 < 800 }
        ensures { self.new ≡ self.old ++ v ∷ z ∷ [] }
    {
        self.put(v);
        self.put(z);
    }

    // The word i, which waited.
    pub(crate) fn patch(&mut self, i: usize, v: i32)
        ensures { self.new ≡ set self.old i v }
    {
        if i < self.count {
            self.room[i] = v;
        }
    }
}
