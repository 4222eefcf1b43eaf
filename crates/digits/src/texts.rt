// The line of a designer's text that is refused.
ghost use Rattle.std.specs.Prelude.{◌≡◌, ◌≤◌, length};
ghost use Rattle.digits.specs.Texts.{over};
ghost use Rattle.digits.specs.Refused.{unread_text};
ghost use Rattle.digits.specs.Puts.{Put};

use crate::puts::{put_column, put_number, put_text};

fn put_unread(out: &mut [u8], number: u32, at: u32) -> usize
    ensures { Put 33 out.old 0 (unread_text number at) out.new result }
{
    let a = put_text(out, 0, b"refused ");
    let b = put_number(out, a, number);
    let c = put_text(out, b, b" at ");
    put_column(out, c, at, b'\n')
}

// Puts the line at the start of `out`, and answers how many bytes it has. What it does not reach stays as it was.
pub fn refused_at(number: u32, at: u32, out: &mut [u8]) -> usize
    ensures size { result ≡ length (unread_text number at) }
    ensures put { out.new ≡ over (unread_text number at) out.old }
    ensures short { result ≤ 33 }
{
    put_unread(out, number, at)
}
