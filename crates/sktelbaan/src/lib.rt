// The C interface: each operation under a plain name, for C and Rust to link. How a record is laid out stands in `c_records`, how a reply is in `c_layout`, and what
// a reply of 64 bits is in `sktelbaan_runner`; the rest is what the crates below reply.
#![tactic(auto)]

ghost use Rattle.std.specs.Prelude.{◌≡◌, length};
ghost use Rattle.colour.specs.Evaluating.{evaluated};
ghost use Rattle.ink_names.specs.Search.{found_ink};
ghost use Rattle.page.specs.Validation.{validated};
ghost use Rattle.recipe.specs.PageWrites.{write_reply, write_words};
ghost use Rattle.runner.specs.Runs.{ran};
ghost use Rattle.block.specs.Single.{read_number};
ghost use Rattle.reader.specs.Texts.{room_after};
ghost use Rattle.judging.specs.Replies.{replied};
ghost use Rattle.designer.specs.Lent.{memory, lent_fault, view_of, begun_view, part_view, end_view, answer_of};
ghost use Rattle.sktelbaan_runner.specs.Replies.{in_halves, reply_of, floats_of};
ghost use Rattle.c_layout.specs.Replies.{verdict_of, wrote_of};
ghost use Rattle.c_layout.specs.Inks.{ink_of, place_of};
ghost use Rattle.c_records.specs.Records.{put_number, put_block, got_numbers, got_bytes};
ghost use Rattle.sktelbaan.specs.Replies.{page_of};

mod texts;

use fixed::Refusal;
use sktelbaan_runner::halves;

// Validates a page. The reply gives nothing.
#[unsafe(no_mangle)]
pub extern "C" fn sktelbaan_validate(page: &[u8]) -> u64
    ensures { result ≡ verdict_of (validated page.now) }
{
    c_layout::verdict(page::validate(page))
}

// Evaluates a colour of the space at a number of a page. The reply gives 1 for Gray, 2 for RGB, 3 for CMYK, 4 for XYZ, 5 for no mark and 6 for every ink, with
// its one, three or four floats in `floats`, of no mark none, and sets its top bit where a limit moved anything; the others, and on a refusal all, stay as they were.
#[unsafe(no_mangle)]
pub extern "C" fn sktelbaan_evaluate(
    page: &[u8],
    number: u32,
    components: &[i32],
    floats: &mut [f64; 4],
) -> u64
    ensures value { result ≡ reply_of (evaluated page.now number components.now) }
    ensures floats_after { floats.new ≡ floats_of (evaluated page.now number components.now) floats.old }
{
    sktelbaan_runner::put_answer(colour::evaluate(page, number, components), floats)
}

// Writes the recipe of the space at a number of a page. The reply gives its count of words; the others, and on a refusal all, stay as they were.
#[unsafe(no_mangle)]
pub extern "C" fn sktelbaan_write_recipe(page: &[u8], number: u32, words: &mut [i32]) -> u64
    ensures value { result ≡ wrote_of (write_reply page.now number words.old) }
    ensures words_after { words.new ≡ write_words page.now number words.old }
{
    c_layout::count(recipe::write(page, number, words))
}

// Runs a recipe on a colour's components, as `sktelbaan_runner` does: the reply and the floats are those of evaluating.
#[unsafe(no_mangle)]
pub extern "C" fn sktelbaan_run(words: &[i32], components: &[i32], floats: &mut [f64; 4]) -> u64
    ensures value { result ≡ reply_of (ran words.now components.now) }
    ensures floats_after { floats.new ≡ floats_of (ran words.now components.now) floats.old }
{
    sktelbaan_runner::sktelbaan_run(words, components, floats)
}

// Writes a record as a block of 512 bytes. The reply gives nothing; on a refusal the block stays as it was.
#[unsafe(no_mangle)]
pub extern "C" fn sktelbaan_write_block(
    numbers: &[i32; 20],
    bytes: &[u8; 504],
    block: &mut [u8],
) -> u64
    ensures value { result ≡ in_halves (put_number numbers.now bytes.now block.old) 0 }
    ensures block_after { block.new ≡ put_block numbers.now bytes.now block.old }
{
    if block.len() != 512 {
        return c_layout::done(Err(Refusal::Room));
    }
    if !c_records::is_record_like(numbers) {
        return c_layout::done(Err(Refusal::Form));
    }
    c_layout::done(block::write(c_records::record_of(numbers, bytes), block))
}

// Reads the record of a block of 512 bytes. The reply gives nothing; on a refusal the numbers and the bytes stay as they were.
#[unsafe(no_mangle)]
pub extern "C" fn sktelbaan_read_block(
    block: &[u8],
    numbers: &mut [i32; 20],
    bytes: &mut [u8; 504],
) -> u64
    ensures value { result ≡ in_halves (read_number block.now) 0 }
    ensures numbers_after { numbers.new ≡ got_numbers block.now numbers.old }
    ensures bytes_after { bytes.new ≡ got_bytes block.now bytes.old }
{
    match block::read(block) {
        Ok(r) => {
            let v = c_records::numbers_of(r.own, r.body);
            let room = r.bytes;
            *numbers = v;
            *bytes = room;
            halves(0, 0)
        }
        Err(refusal) => halves(refusal.number(), 0),
    }
}

// Asks for an ink by its name, of the job's page and the house page. The reply gives the page and the block that it was found in, with the place of its name on
// that page in `place`: how many bytes stand before it, and how many it has. On a refusal the reply has the page and the block that it is about, and `place`
// stays as it was.
#[unsafe(no_mangle)]
pub extern "C" fn sktelbaan_find_ink(
    job: &[u8],
    house: &[u8],
    name: &[u8],
    place: &mut [u32; 2],
) -> u64
    ensures value { result ≡ ink_of (found_ink job.now house.now name.now) }
    ensures place_after { place.new ≡ place_of (found_ink job.now house.now name.now) name.now place.old }
{
    match inks::find(job, house, name) {
        Ok(found) => {
            let from = ink_names::name_start(found.block) as u32;
            let size = name.len() as u32;
            *place = [from, size];
            halves(0, c_layout::on_page(Some(found.page), found.block))
        }
        Err(error) => c_layout::no_ink(error),
    }
}

// Begins a designer's text, in memory that is lent. The reply gives nothing.
#[unsafe(no_mangle)]
pub extern "C" fn sktelbaan_begin_text(
    words: &mut [u64; designer::WORDS],
    values: &mut [i32; designer::VALUES],
    word: &[u8; designer::WORD_BYTES],
    marks: &[u32; designer::SPACES],
    names: &[u8; designer::NAME_BYTES],
    opens: &[u32; designer::BLOCKS],
    blocks: &[u8; designer::BLOCK_BYTES],
) -> u64
    ensures value { result ≡ in_halves (lent_fault (memory words.old values.old word.now marks.now names.now opens.now blocks.now)) 0 }
    ensures blocks_after { view_of (memory words.new values.new word.now marks.now names.now opens.now blocks.now) ≡ begun_view (view_of (memory words.old values.old word.now marks.now names.now opens.now blocks.now)) }
{
    c_layout::done(designer::begin(words, values, word, marks, names, opens, blocks))
}

// Reads a part of a designer's text; `room` is the length of the room that its end will be lent. The reply gives nothing.
#[unsafe(no_mangle)]
pub extern "C" fn sktelbaan_read_text(
    text: &[u8],
    room: usize,
    words: &mut [u64; designer::WORDS],
    values: &mut [i32; designer::VALUES],
    word: &mut [u8; designer::WORD_BYTES],
    marks: &mut [u32; designer::SPACES],
    names: &mut [u8; designer::NAME_BYTES],
    opens: &mut [u32; designer::BLOCKS],
    blocks: &mut [u8; designer::BLOCK_BYTES],
) -> u64
    ensures value { result ≡ in_halves (lent_fault (memory words.old values.old word.old marks.old names.old opens.old blocks.old)) 0 }
    ensures blocks_after { view_of (memory words.new values.new word.new marks.new names.new opens.new blocks.new) ≡ part_view room (view_of (memory words.old values.old word.old marks.old names.old opens.old blocks.old)) text.now }
{
    c_layout::done(designer::part(text, room, words, values, word, marks, names, opens, blocks))
}

// Ends a designer's text. The reply gives how many blocks were written to the room; on a refusal its byte in place of a block, and the room stays as it was.
#[unsafe(no_mangle)]
pub extern "C" fn sktelbaan_end_text(
    room: &mut [u8],
    words: &mut [u64; designer::WORDS],
    values: &mut [i32; designer::VALUES],
    word: &[u8; designer::WORD_BYTES],
    marks: &mut [u32; designer::SPACES],
    names: &mut [u8; designer::NAME_BYTES],
    opens: &mut [u32; designer::BLOCKS],
    blocks: &mut [u8; designer::BLOCK_BYTES],
) -> u64
    ensures value { result ≡ page_of (replied (answer_of (length room.old) (view_of (memory words.old values.old word.now marks.old names.old opens.old blocks.old)))) }
    ensures room_after { room.new ≡ room_after (answer_of (length room.old) (view_of (memory words.old values.old word.now marks.old names.old opens.old blocks.old))) room.old }
    ensures blocks_after { view_of (memory words.new values.new word.now marks.new names.new opens.new blocks.new) ≡ end_view (length room.old) (view_of (memory words.old values.old word.now marks.old names.old opens.old blocks.old)) }
{
    texts::page_reply(designer::end(room, words, values, word, marks, names, opens, blocks))
}
