// Numbers, floats, answers and refusals, written to standard output.
use cie::{Answer, Answered, Xyz};
use std::io;

// Writes text.
pub fn say(rt: &impl Print, s: &[u8]) -> io::Result<()> {
    rt.write_all(s)
}

// Writes a whole number in decimal.
pub fn say_number(rt: &impl Print, v: i32) -> io::Result<()> {
    print!(rt; "{v}")
}

// Writes a number that is not negative, in decimal.
pub fn say_size(rt: &impl Print, n: u32) -> io::Result<()> {
    print!(rt; "{n}")
}

// Writes a space, and a whole number.
pub fn say_next(rt: &impl Print, v: i32) -> io::Result<()> {
    print!(rt; " {v}")
}

// Writes bytes, each as its two hexadecimal digits, or a full stop where it is zero.
pub fn say_dotted(rt: &impl Print, s: &[u8]) -> io::Result<()> {
    for &x in s {
        match x {
            0 => say(rt, b".")?,
            _ => print!(rt; "{x:02x}")?,
        }
    }
    Ok(())
}

// Writes bytes, each as its two hexadecimal digits.
pub fn say_bytes(rt: &impl Print, s: &[u8]) -> io::Result<()> {
    for &x in s {
        print!(rt; "{x:02x}")?;
    }
    Ok(())
}

// The bits of a float; those of a NaN are not told apart.
fn bits_of(x: f64) -> u64 {
    if x.is_nan() {
        return 0x7ff8_0000_0000_0000;
    }
    x.to_bits()
}

// Writes a float as its sixteen hexadecimal digits.
pub fn say_float(rt: &impl Print, x: f64) -> io::Result<()> {
    let bits = bits_of(x);
    print!(rt; "{bits:016x}")
}

// Writes X, Y and Z.
pub fn say_xyz(rt: &impl Print, p: Xyz) -> io::Result<()> {
    let (x, y, z) = (bits_of(p.x), bits_of(p.y), bits_of(p.z));
    print!(rt; "XYZ {x:016x} {y:016x} {z:016x}")
}

// Writes an answer without its flag.
fn say_floats(rt: &impl Print, a: Answer) -> io::Result<()> {
    match a {
        Answer::Gray(g) => {
            let g = bits_of(g);
            print!(rt; "Gray {g:016x}")
        }
        Answer::Rgb(r, g, b) => {
            let (r, g, b) = (bits_of(r), bits_of(g), bits_of(b));
            print!(rt; "RGB {r:016x} {g:016x} {b:016x}")
        }
        Answer::Cmyk(c, m, y, k) => {
            let (c, m, y, k) = (bits_of(c), bits_of(m), bits_of(y), bits_of(k));
            print!(rt; "CMYK {c:016x} {m:016x} {y:016x} {k:016x}")
        }
        Answer::Xyz(p) => say_xyz(rt, p),
        Answer::NoMark => say(rt, b"NoMark"),
        Answer::EveryInk(t) => {
            let t = bits_of(t);
            print!(rt; "EveryInk {t:016x}")
        }
        Answer::Refused(refused) => print!(rt; "{refused}"),
    }
}

// Writes an answer, and whether a limit moved anything on the way to it, or a refusal.
pub fn say_answer(rt: &impl Print, r: Answered) -> io::Result<()> {
    say_floats(rt, r.answer)?;
    if r.moved && !matches!(r.answer, Answer::Refused(_)) {
        say(rt, b" moved")?;
    }
    Ok(())
}
