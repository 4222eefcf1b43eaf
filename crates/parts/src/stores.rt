// Words stored one after another.
ghost use Rattle.std.specs.Prelude.{◌≡◌, ◌+◌, ◌≤◌, pos, length};
ghost use Rattle.std.proofs.lemmas.List.Edits.{sets};

// A small number as a word.
pub fn word_of(k: u32) -> i32
    requires { k ≤ 65535 }
    ensures { result ≡ pos k }
{
    k as i32
}

// Stores some words from `at` on.
pub fn put(words: &mut [i32], at: usize, some: &[i32])
    requires { at + length some.now ≤ length words.old }
    ensures { words.new ≡ sets words.old at some.now }
{
    words[at..at + some.len()].copy_from_slice(some);
}
