// Numbers and bytes, read off a text. Nothing is refused: what is no number is 0.
ghost use Rattle.std.specs.Prelude.{◌≤◌, ◌<◌, length, take, IfOk, IfSome};
ghost use Rattle.std.specs.Io.{ReadsAtMost, StopsAt};
ghost use Rattle.std.specs.Io.KnownBytes.{IsAtEnd};
ghost use Rattle.text.specs.Reads.{ReadsInto};

use octets::to_signed;
use std::io::{Read, Result};

fn signed_of(size: u64, minus: bool) -> i32 {
    let low = size % 4294967296;
    if minus {
        return to_signed(((4294967296 - low) % 4294967296) as u32);
    }
    to_signed(low as u32)
}

// The number that decimal digits begin with, and what follows them.
fn digits_in(s: &[u8], minus: bool) -> (i32, &[u8]) {
    let mut size: u64 = 0;
    let mut rest = s;
    while let [c @ b'0'..=b'9', after @ ..] = rest {
        size = (size * 10 + (*c - b'0') as u64) % 10000000000;
        rest = after;
    }
    (signed_of(size, minus), rest)
}

// The number that a text begins with, with a minus sign or without, and what follows it.
fn number_in(s: &[u8]) -> (i32, &[u8]) {
    match s {
        [b'-', digits @ ..] => digits_in(digits, true),
        _ => digits_in(s, false),
    }
}

// The numbers that a text begins with, each after a space, up to the bytes or the line's end: 0 past the last, and what follows them.
pub fn numbers_in(s: &[u8]) -> ([i32; 24], &[u8]) {
    let mut values = [0i32; 24];
    let mut rest = s;
    for value in values.iter_mut() {
        match rest {
            [b' ', b'x', ..] => break,
            [b' ', after @ ..] => {
                let (number, next) = number_in(after);
                *value = number;
                rest = next;
            }
            _ => break,
        }
    }
    (values, rest)
}

// The value of a hexadecimal digit.
fn digit_of(c: u8) -> Option<u8>
    ensures { IfSome result (λ d. d ≤ 15) }
{
    match c {
        b'0'..=b'9' => Some(c - b'0'),
        b'a'..=b'f' => Some(c - b'a' + 10),
        _ => None,
    }
}

// The byte that a text begins with, and what follows it: two hexadecimal digits, or a full stop for a zero byte.
fn byte_in(s: &[u8]) -> Option<(u8, &[u8])> {
    match s {
        [b'.', rest @ ..] => Some((0, rest)),
        [high, low, rest @ ..] => Some((digit_of(*high)? * 16 + digit_of(*low)?, rest)),
        _ => None,
    }
}

// Puts the bytes that a text begins with at the start of `out`, as many as it holds, and answers how many.
pub fn bytes_in(s: &[u8], out: &mut [u8]) -> usize
    ensures { result ≤ length out.new }
{
    let mut rest = s;
    let mut n: usize = 0;
    for byte in out.iter_mut() {
        let Some((x, next)) = byte_in(rest) else {
            break;
        };
        *byte = x;
        n += 1;
        rest = next;
    }
    n
}

// Puts the next line of the input at the start of `out`, its newline with it, as much as it holds, and answers how many bytes. Where a read
// fails, what came before it stands in `out`.
pub fn line_in<R: Read>(input: &mut R, out: &mut [u8]) -> Result<usize>
    ensures bound { ReadsAtMost result out.new }
    ensures bytes { ReadsInto (R.remaining input.old) (R.remaining input.new) result out.new }
    ensures line { IfOk result (λ n. StopsAt (take n out.new) 10) }
{
    for n in 0..out.len() {
        let mut one = [0u8; 1];
        let got = input.read(&mut one)?;
        if got == 0 {
            return Ok(n);
        }
        let c = one[0];
        out[n] = c;
        if c == b'\n' {
            return Ok(n + 1);
        }
    }
    Ok(out.len())
}

// Reads until `out` is full or the input ends, and answers how many bytes stand at the start of `out`. Where a read fails, what came before it stands there.
pub fn read_full<R: Read>(input: &mut R, out: &mut [u8]) -> Result<usize>
    ensures bound { ReadsAtMost result out.new }
    ensures bytes { ReadsInto (R.remaining input.old) (R.remaining input.new) result out.new }
    ensures end { IfOk result (λ n. n < length out.new → IsAtEnd (R.remaining input.new)) }
{
    let mut n: usize = 0;
    // Kept: a `while`, since each turn goes as far as the read went.
    while n < out.len() {
        let got = input.read(&mut out[n..])?;
        if got == 0 {
            return Ok(n);
        }
        n += got;
    }
    Ok(n)
}
