// Names, as their bytes.
ghost use Rattle.std.specs.Prelude.{◌≡◌};
ghost use Rattle.lexical.specs.Names.{same};

// Whether two names are the same bytes.
#[tactic(auto, unfolding(crate::specs::Names::same))]
pub fn is_word(word: &[u8], name: &[u8]) -> bool
    ensures { result ≡ same word.now name.now }
{
    word == name
}
