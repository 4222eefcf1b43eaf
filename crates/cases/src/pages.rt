// Cases of pages, colours, recipes and running them.
use crate::asking::ink_case;
use colour::evaluate;
use designer_cases::text_case;
use lines::{LONGEST, list};
use octets::{number_at, of_signed};
use page::validate;
use recipe::write;
use runner::run;
use std::io::Result;
use text::{say, say_answer, say_next, say_size};

// Room for the words of a case: those of the longest recipe, and a few more, for one that is too long.
const WORDS: usize = fixed::LONGEST + 16;

fn validate_case(rt: &impl Print, page: &[u8]) -> Result<()> {
    match validate(page) {
        Ok(()) => say(rt, b"accepted"),
        Err(refused) => print!(rt; "{refused}"),
    }
}

// The first of a list, as many as are asked for and there are.
fn first(s: &[i32], count: u32) -> &[i32] {
    &s[..s.len().min(count as usize)]
}

fn components_from(v: [i32; 24], from: u32) -> [i32; 20] {
    let mut c = [0i32; 20];
    for (i, component) in c.iter_mut().enumerate() {
        *component = v.get(from as usize + i).copied().unwrap_or(0);
    }
    c
}

fn evaluate_case(rt: &impl Print, v: [i32; 24], page: &[u8]) -> Result<()> {
    let c = components_from(v, 3);
    say_answer(
        rt,
        evaluate(page, of_signed(v[1]), first(&c, of_signed(v[2]))),
    )
}

// Whether each word from `at` on is 7.
fn is_kept(s: &[i32], at: usize) -> bool {
    s.iter().skip(at).all(|x| *x == 7)
}

fn say_words(rt: &impl Print, s: &[i32], n: usize) -> Result<()> {
    for x in s.iter().take(n) {
        say_next(rt, *x)?;
    }
    Ok(())
}

// Writes a recipe into words that hold 7.
fn write_into(rt: &impl Print, page: &[u8], n: u32, s: &mut [i32]) -> Result<()> {
    match write(page, n, s) {
        Ok(count) => {
            say(rt, b"words ")?;
            say_size(rt, count)?;
            if is_kept(s, count as usize) {
                say(rt, b" kept")?;
            }
            say_words(rt, s, count as usize)
        }
        Err(refused) => {
            print!(rt; "{refused}")?;
            if is_kept(s, 0) {
                say(rt, b" kept")?;
            }
            Ok(())
        }
    }
}

fn lent(rt: &impl Print, s: &mut [i32], n: usize, page: &[u8], space: u32) -> Result<()> {
    if n <= s.len() {
        write_into(rt, page, space, &mut s[..n])?;
    }
    Ok(())
}

fn write_case(rt: &impl Print, v: [i32; 24], page: &[u8]) -> Result<()> {
    let mut s = [7i32; WORDS];
    lent(rt, &mut s, of_signed(v[2]) as usize, page, of_signed(v[1]))
}

// The words that bytes are, four to a word.
fn words_of(s: &[u8]) -> [i32; WORDS] {
    let mut words = [0; WORDS];
    for (i, word) in words.iter_mut().enumerate() {
        *word = number_at(s, (i / 128) as u32, (4 * (i % 128)) as u32);
    }
    words
}

fn run_case(rt: &impl Print, v: [i32; 24], bytes: &[u8]) -> Result<()> {
    let s = words_of(bytes);
    let c = components_from(v, 2);
    let n = (bytes.len() / 4) % (WORDS + 1);
    say_answer(rt, run(first(&s, n as u32), first(&c, of_signed(v[1]))))
}

fn say_joined(rt: &impl Print, x: u8, last: bool) -> Result<()> {
    if x != b'\n' {
        let one = [x];
        return say(rt, &one);
    }
    if !last {
        say(rt, b"; ")?;
    }
    Ok(())
}

// The listing, its lines joined by semicolons.
fn list_case(rt: &impl Print, page: &[u8]) -> Result<()> {
    let mut text = [0u8; LONGEST];
    let n = list(page, &mut text);
    for (i, x) in text[..n].iter().enumerate() {
        say_joined(rt, *x, i + 1 == n)?;
    }
    Ok(())
}

// Operations 30 to 36: validating, evaluating, writing a recipe, running one, listing, asking for an ink, reading a text.
// Kept: an operation is a number in the text of a case, and each arm names the one function that it calls.
pub fn page_case(rt: &impl Print, op: u32, v: [i32; 24], bytes: &[u8]) -> Result<()> {
    match op {
        30 => validate_case(rt, bytes),
        31 => evaluate_case(rt, v, bytes),
        32 => write_case(rt, v, bytes),
        33 => run_case(rt, v, bytes),
        34 => list_case(rt, bytes),
        35 => ink_case(rt, v, bytes),
        36 => text_case(rt, v, bytes),
        _ => say(rt, b"no such case"),
    }
}
