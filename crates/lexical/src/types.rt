// A number as it is read.

// What a token of regular characters is so far: nothing, a sign, digits, a point with no digit, digits with a point, or no number.
#[derive(Clone, Copy, Debug, PartialEq, Eq)]
pub enum Part {
    Empty,
    Sign,
    Digits,
    Point,
    Decimals,
    Keyword,
}

// A number so far: all its digits, up to the sixth after the point, as one whole number, and how many stand after the point.
#[derive(Clone, Copy, Debug, PartialEq, Eq)]
pub struct Number {
    pub part: Part,
    pub minus: bool,
    pub fine: bool,
    pub raw: u64,
    pub after: u32,
}
