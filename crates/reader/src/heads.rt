// The sorts of token.
ghost use Rattle.std.specs.Prelude.{◌≡◌};
ghost use Rattle.reader.specs.Tokens.{sort_of};
ghost use Rattle.reader.specs.Kept.{sorted};

use crate::types::Sort;
use lexer::Token;
use lexical::Number;

// The sort of a token.
#[tactic(auto, unfolding(crate::specs::Tokens::sort_of))]
pub fn sort_of(t: Token, n: Number) -> Sort
    ensures { sorted result ≡ sort_of t n }
{
    match t {
        Token::NameToken => Sort::Name,
        Token::RegularToken if lexical::is_number(n.part) => Sort::Number,
        Token::RegularToken => Sort::Keyword,
        Token::StringToken => Sort::Text,
        Token::ArrayOpen => Sort::ArrayOpens,
        Token::ArrayClose => Sort::ArrayCloses,
        Token::DictOpen => Sort::DictOpens,
        Token::DictClose => Sort::DictCloses,
    }
}
