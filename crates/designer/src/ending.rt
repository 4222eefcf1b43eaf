// The end of the text: the room is written only where all is accepted.
ghost use Rattle.std.specs.Prelude.{◌≡◌, ◌&&◌, List, ℕ, ◌*◌, ℤ, leb, length};
ghost use Rattle.fixed.specs.Bytes.{blocks as most};
ghost use Rattle.lexer.specs.Moves.{is_gap};
ghost use Rattle.reader.specs.Texts.{is_top, concluded};
ghost use Rattle.judging.specs.Replies.{Ends};
ghost use Rattle.designer.specs.State.{progress_at};

use fixed::Refusal;
use judging::{TextRefusal, judge};
use reader::Want;
use states::State;

fn is_top(w: Want) -> bool
    ensures { result ≡ is_top w }
{
    matches!(w, Want::Top)
}

// Whether the text ends between two spaces, after one at the least.
fn is_whole(s: State) -> bool
    ensures { result ≡ (is_gap s.lexer.mode && (is_top s.head.want && leb 1 s.head.next)) }
{
    lexer::is_gap(s.lexer.mode) && is_top(s.head.want) && 1 <= s.head.next
}

// What the text comes to, once its end has ended the last token.
pub fn conclude(s: State, out: &mut [u8], opens: &[u32], blocks: &[u8]) -> Result<u32, TextRefusal>
    requires { length blocks.now ≡ 512 * most }
    ensures { (values : List ℤ) (word marks names : List ℕ) → Ends result out.old out.new (concluded (length out.old) (progress_at s values word marks names opens.now blocks.now)) }
{
    if s.refusal != 0 {
        return Err(TextRefusal {
            number: s.refusal,
            at: s.place,
        });
    }
    let g = s.head;
    let at = s.lexer.seen;
    if !is_whole(s) {
        let number = Refusal::Syntax.number();
        return Err(TextRefusal { number, at });
    }
    if out.len() < 512 * g.next as usize {
        let number = Refusal::Room.number();
        return Err(TextRefusal { number, at });
    }
    judge(g, out, opens, blocks)
}
