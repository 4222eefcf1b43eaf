// One token, by what may stand there.
ghost use Rattle.std.specs.Prelude.{◌≡◌, length};
ghost use Rattle.lexer.specs.Scans.{scan_at};
ghost use Rattle.reader.specs.Kept.{parser_at, took_at};
ghost use Rattle.reader.specs.Tokens.{took};
ghost use Rattle.tokens.specs.Sizes.{Sizes};

use crate::closing::take_shut;
use fixed::Refusal;
use lexer::{Lexer, Token};
use reader::{Head, Want, dictionary, heads, opening};

// What a token comes to.
// Kept: the lists are parameters. A struct of `&mut` would have each contract say of each list that it is the same one, of its length, and what of it stays.
#[tactic(auto, unfolding(reader::specs::Tokens::took, reader::specs::Tokens::took_by))]
pub fn take_token(
    h: Head,
    l: Lexer,
    token: Token,
    room: usize,
    values: &mut [i32],
    word: &[u8],
    marks: &mut [u32],
    names: &mut [u8],
    opens: &mut [u32],
    blocks: &mut [u8],
) -> Result<Head, Refusal>
    requires { Sizes (length values.old) (length word.now) (length marks.old) (length names.old) (length opens.old) (length blocks.old) }
    ensures { took_at result values.new marks.new names.new opens.new blocks.new ≡ took room (parser_at h values.old marks.old names.old opens.old blocks.old) (scan_at l word.now) token }
{
    let n = l.number;
    let t = heads::sort_of(token, n);
    match h.want {
        Want::Top => opening::take_top(h, l, t, marks, names),
        Want::Family => opening::take_family(h, l, t, word),
        Want::Dict => dictionary::take_dict(h, t, values),
        Want::Key => dictionary::take_key(h, l, t, word),
        Want::Value => dictionary::take_value(h, t, n, values),
        Want::Items => dictionary::take_item(h, t, n, values),
        Want::Shut => take_shut(h, l, t, room, values, word, marks, names, opens, blocks),
        Want::Space => opening::take_space(h, l, t, word, marks, names),
        Want::Hival => dictionary::take_hival(h, t, n),
        Want::Lookup => dictionary::take_lookup(h, l, t),
        Want::Ink => opening::take_ink(h, l, t, word, names),
    }
}
