// The blocks of a space that closes, stored one after the other in the lent bytes.
ghost use Rattle.std.specs.Prelude.{◌≡◌, ◌++◌, ◌+◌, ◌*◌, ◌≤◌, length, take, drop};
ghost use Rattle.fixed.specs.Bytes.{blocks as most};
ghost use Rattle.record.specs.Layout.{block_of};
ghost use Rattle.lexer.specs.Scans.{scan_at};
ghost use Rattle.reader.specs.Spaces.{run_of, run_blocks, made_with};
ghost use Rattle.reader.specs.Kept.{ring, made_at, parser_at};

use lexer::Lexer;
use reader::{Head, frames, making};
use record::Record;

// Stores a record as block n.
fn put_block(blocks: &mut [u8], n: usize, r: Record)
    requires { 512 * n + 512 ≤ length blocks.old }
    ensures { blocks.new ≡ take (512 * n) blocks.old ++ (block_of r ++ drop (512 * n + 512) blocks.old) }
{
    let a = 512 * n;
    block::put_record(r, &mut blocks[a..a + 512]);
}

// Stores a palette in k blocks from number own on.
fn put_run(blocks: &mut [u8], own: usize, k: usize, palette: &[u8])
    requires { (own + k ≤ most) × (length blocks.old ≡ 512 * most) }
    ensures { blocks.new ≡ take (512 * own) blocks.old ++ (run_of own k palette.now ++ drop (512 * (own + k)) blocks.old) }
{
    for j in 0..k {
        let part = &palette[palette.len().min(504 * j)..];
        put_block(blocks, own + j, making::palette_of(part, own + j));
    }
}

// Makes the blocks of the space that closes: its own, and k of its palette straight after it.
pub fn make(
    h: Head,
    l: Lexer,
    k: usize,
    values: &[i32],
    word: &[u8],
    marks: &[u32],
    names: &[u8],
    opens: &mut [u32],
    blocks: &mut [u8],
)
    requires values_len { (length values.now ≡ 30) × ((length names.now ≡ 128 * ring) × (length marks.now ≡ ring)) }
    requires opens_len { (length opens.old ≡ most) × ((length blocks.old ≡ 512 * most) × (h.next + (1 + k) ≤ most)) }
    requires k_value { k ≡ run_blocks (parser_at h values.now marks.now names.now opens.old blocks.old) }
    ensures { made_at (h.next + (1 + k)) opens.new blocks.new ≡ made_with (parser_at h values.now marks.now names.now opens.old blocks.old) (scan_at l word.now).word }
{
    let next = h.next as usize;
    let palette = making::held(word, l.size);
    let r = making::record_of(h, values, names);
    let at = frames::start_of(marks, frames::slot(h.top), frames::depth(h.deep));
    put_block(blocks, next, r);
    put_run(blocks, next + 1, k, palette);
    making::put_opens(opens, next, 1 + k, at);
}
