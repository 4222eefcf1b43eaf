// A case, which stands in a line.
use crate::pages::page_case;
use octets::of_signed;
use small_cases::{block_case, number_case, step_case};
use std::io::Result;
use text::{bytes_in, numbers_in, say};

// Runs a case that begins with its operation and numbers; its bytes go into `room`.
fn case(rt: &impl Print, s: &[u8], room: &mut [u8]) -> Result<()> {
    let (v, rest) = numbers_in(s);
    let bytes = match rest.iter().position(|c| *c == b'x') {
        Some(x) => &rest[x + 1..],
        None => &[],
    };
    let n = bytes_in(bytes, room);
    let op = of_signed(v[0]);
    match op {
        0..=9 => number_case(rt, op, v, &room[..n]),
        10..=19 => step_case(rt, op, v),
        20..=29 => block_case(rt, op, v, &room[..n]),
        _ => page_case(rt, op, v, &room[..n]),
    }
}

// Runs the case of a line, and writes its label and what comes of it.
pub fn line(rt: &impl Print, s: &[u8], room: &mut [u8]) -> Result<()> {
    let Some(colon) = s.iter().position(|c| *c == b':') else {
        return Ok(());
    };
    say(rt, &s[..colon])?;
    say(rt, b": ")?;
    case(rt, &s[colon + 1..], room)?;
    say(rt, b"\n")
}
