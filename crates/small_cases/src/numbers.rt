// Cases of the crate `fixed`.
use fixed::{float_of, index_of, limit, over_one, palette_value, tint_power, tint_value};
use octets::{number_at, of_signed, put_number, two_at};
use std::io::Result;
use text::{say, say_bytes, say_float, say_number, say_size};

fn palette_case(rt: &impl Print, b: u32, lo: i32, hi: i32) -> Result<()> {
    if b <= 255 {
        let table = over_one();
        say_number(rt, palette_value(&table, b, lo, hi))?;
    }
    Ok(())
}

fn index_case(rt: &impl Print, v: i32, hival: u32) -> Result<()> {
    let index = index_of(v, hival);
    say_size(rt, index.row)
}

fn power_case(rt: &impl Print, x: u32, exponent: u32) -> Result<()> {
    if x <= 1000000 {
        say_size(rt, tint_power(x, exponent))?;
    }
    Ok(())
}

fn tint_case(rt: &impl Print, c0: i32, c1: i32, q: u32) -> Result<()> {
    if q <= 1000000 {
        say_number(rt, tint_value(c0, c1, q))?;
    }
    Ok(())
}

fn bytes_case(rt: &impl Print, v: i32) -> Result<()> {
    let mut out = [0u8; 4];
    put_number(&mut out, 0, v);
    say_bytes(rt, &out)
}

// Operations 1 to 9: limit, index, palette value, tint power, tint value, float; a number of two bytes, of four, and the bytes of a number.
// Kept: an operation is a number in the text of a case, as in `page_case` of `cases`.
pub fn number_case(rt: &impl Print, op: u32, v: [i32; 24], bytes: &[u8]) -> Result<()> {
    match op {
        1 => say_number(rt, limit(v[1], v[2], v[3])),
        2 => index_case(rt, v[1], of_signed(v[2])),
        3 => palette_case(rt, of_signed(v[1]), v[2], v[3]),
        4 => power_case(rt, of_signed(v[1]), of_signed(v[2])),
        5 => tint_case(rt, v[1], v[2], of_signed(v[3])),
        6 => say_float(rt, float_of(v[1])),
        7 => say_size(rt, two_at(bytes, 0, 0)),
        8 => say_number(rt, number_at(bytes, 0, 0)),
        9 => bytes_case(rt, v[1]),
        _ => say(rt, b"no such case"),
    }
}
