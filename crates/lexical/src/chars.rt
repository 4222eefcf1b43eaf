// The characters: white space, delimiters, digits (ISO 32000-1, 7.2.2).
ghost use Rattle.std.specs.Prelude.{◌≡◌, ◌+◌, ◌%◌, ◌*◌, ◌<◌, ◌≤◌};
ghost use Rattle.lexical.specs.Chars.{white, delimiter, regular, line_end, decimal, octal, hex_of, hex_byte};

// Whether a byte is white space: NUL, HT, LF, FF, CR or SP.
// Kept: joined by `|`, since `matches!` compiles to a branch for each byte, and texts are read a third slower.
pub fn is_white(b: u8) -> bool
    ensures { result ≡ white b }
{
    (b == b'\0') | ((b == b'\t') | ((b == b'\n') | ((b == b'\x0c') | ((b == b'\r') | (b == b' ')))))
}

// Whether a byte is a delimiter.
// Kept: joined by `|`, as `is_white` is.
pub fn is_delimiter(b: u8) -> bool
    ensures { result ≡ delimiter b }
{
    (b == b'(')
        | ((b == b')')
            | ((b == b'<')
                | ((b == b'>')
                    | ((b == b'[')
                        | ((b == b']')
                            | ((b == b'{') | ((b == b'}') | ((b == b'/') | (b == b'%')))))))))
}

// Whether a byte is a regular character.
// Kept: joined by `|`, as `is_white` is.
pub fn is_regular(b: u8) -> bool
    ensures { result ≡ regular b }
{
    !(is_white(b) | is_delimiter(b))
}

// Whether a byte ends a line.
pub fn is_line_end(b: u8) -> bool
    ensures { result ≡ line_end b }
{
    matches!(b, b'\n' | b'\r')
}

// Whether a byte is a digit.
pub fn is_decimal(b: u8) -> bool
    ensures { result ≡ decimal b }
{
    b.is_ascii_digit()
}

// Whether a byte is an octal digit.
pub fn is_octal(b: u8) -> bool
    ensures { result ≡ octal b }
{
    matches!(b, b'0'..=b'7')
}

// The value of a hexadecimal digit, 16 for any other byte.
// Kept: 16 and no Option, as in the definition `hex_of`: pairs of digits are tested by two comparisons, and `hex_byte` computes with it.
// Kept: three tests, since a `match` on the ranges compiles to two branches for each, and hexadecimal strings take a tenth more instructions.
#[tactic(auto, unfolding(crate::specs::Chars::hex_of))]
pub fn hex_of(b: u8) -> u8
    ensures is { result ≡ hex_of b }
    ensures small { result ≤ 16 }
{
    if b.is_ascii_digit() {
        b - b'0'
    } else if matches!(b, b'A'..=b'F') {
        b - b'A' + 10
    } else if matches!(b, b'a'..=b'f') {
        b - b'a' + 10
    } else {
        16
    }
}

// The byte of two hexadecimal digits.
pub fn hex_byte(d: u8, h: u8) -> u8
    requires { h < 16 }
    ensures { result ≡ hex_byte d h }
{
    d % 16 * 16 + h
}
