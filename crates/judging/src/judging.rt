// The blocks that a text has made: judged, and copied to the room where they are accepted.
ghost use Rattle.std.specs.Prelude.{◌≡◌, List, ◌++◌, ℕ, ◌*◌, ◌≤◌, ℤ, length, take, drop, get_or};
ghost use Rattle.fixed.specs.Bytes.{blocks as most};
ghost use Rattle.page.specs.Validation.{validated};
ghost use Rattle.reader.specs.Kept.{parser_at};
ghost use Rattle.reader.specs.Texts.{judged};
ghost use Rattle.judging.specs.Replies.{Ends};

use crate::types::TextRefusal;
use reader::Head;
use reader::making::held;

// The opening bracket of block b, of n.
fn bracket_of(opens: &[u32], n: u8, b: u32) -> u32
    ensures { result ≡ get_or (take n opens.now) b 0 }
{
    match opens.get(b as usize) {
        Some(&at) if b < u32::from(n) => at,
        _ => 0,
    }
}

// Copies the page to the room.
// Kept: a loop, for the library's copy needs `memmove` here, which an archive for C may lack.
fn write_page(out: &mut [u8], page: &[u8])
    requires { length page.now ≤ length out.old }
    ensures { out.new ≡ page.now ++ drop (length page.now) out.old }
{
    for i in 0..page.len() {
        out[i] = page[i];
    }
}

// Judges the blocks that were made: how many blocks the page has.
pub fn judge(g: Head, out: &mut [u8], opens: &[u32], blocks: &[u8]) -> Result<u32, TextRefusal>
    requires { (512 * g.next ≤ length out.old) × (length blocks.now ≡ 512 * most) }
    ensures { (values : List ℤ) (marks names : List ℕ) → Ends result out.old out.new (judged (parser_at g values marks names opens.now blocks.now) (validated (take (512 * g.next) blocks.now))) }
{
    let page = held(blocks, 512 * u32::from(g.next));
    match page::validate(page) {
        Ok(()) => {
            write_page(out, page);
            Ok((page.len() / 512) as u32)
        }
        Err(refused) => {
            let number = refused.refusal.number();
            let at = bracket_of(opens, g.next, refused.block);
            Err(TextRefusal { number, at })
        }
    }
}
