// A record: numbers are counts of millionths, references are block numbers or device codes.

// How many blocks a page has at most: the numbers of blocks are below this.
pub const NUMBERS: u16 = fixed::BLOCKS as u16;

// How many bytes the room of a record has, and a block's part of a palette.
pub const ROOM: u32 = 504;

// Where the name of a Separation begins in its block, and the names of a DeviceN.
pub const NAME_FROM: u32 = 8;

// How many bytes of a block the names of a DeviceN may take.
pub const NAMES: u32 = 500;

// Three numbers: a point of XYZ, or one for each of three components.
#[derive(Clone, Copy, Debug, PartialEq, Eq)]
pub struct Triple {
    pub x: i32,
    pub y: i32,
    pub z: i32,
}

// The ranges of a* and b*.
#[derive(Clone, Copy, Debug, PartialEq, Eq)]
pub struct Ranges {
    pub amin: i32,
    pub amax: i32,
    pub bmin: i32,
    pub bmax: i32,
}

// A number for each component of an alternate space, of which there are up to four.
#[derive(Clone, Copy, Debug, PartialEq, Eq)]
pub struct Four {
    pub a: i32,
    pub b: i32,
    pub c: i32,
    pub d: i32,
}

// The numbers in their order.
impl From<Four> for [i32; 4] {
    ghost use Rattle.std.specs.Prelude.{◌≡◌};
    ghost use Rattle.record.specs.Layout.{entries_of};

    ghost from_gives = { λ q l. l ≡ entries_of q };

    fn from(q: Four) -> [i32; 4] {
        [q.a, q.b, q.c, q.d]
    }
}

// Four numbers as ranges, in their order.
impl From<Four> for Ranges {
    ghost use Rattle.std.specs.Prelude.{◌≡◌};
    ghost use Rattle.record.specs.Layout.{ranges_of};

    ghost from_gives = { λ q r. r ≡ ranges_of q };

    fn from(q: Four) -> Ranges {
        Ranges {
            amin: q.a,
            amax: q.b,
            bmin: q.c,
            bmax: q.d,
        }
    }
}

// A CalGray space.
#[derive(Clone, Copy, Debug, PartialEq, Eq)]
pub struct CalGray {
    pub white: Triple,
    pub black: Triple,
    pub gamma: i32,
}

// A CalRGB space. Its matrix is a, b and c, the XYZ of each component.
#[derive(Clone, Copy, Debug, PartialEq, Eq)]
pub struct CalRgb {
    pub white: Triple,
    pub black: Triple,
    pub gammas: Triple,
    pub a: Triple,
    pub b: Triple,
    pub c: Triple,
}

// A Lab space.
#[derive(Clone, Copy, Debug, PartialEq, Eq)]
pub struct Lab {
    pub white: Triple,
    pub black: Triple,
    pub range: Ranges,
}

// A Separation space. Its name stands in the first bytes of the record's room, name_len of them.
#[derive(Clone, Copy, Debug, PartialEq, Eq)]
pub struct Separation {
    pub alternate: u16,
    pub exponent: u8,
    pub name_len: u8,
    pub c0: Four,
    pub c1: Four,
}

// What a block's kind says it holds.
#[derive(Clone, Copy, Debug, PartialEq, Eq)]
pub enum Body {
    Free,
    CalGray(CalGray),
    CalRgb(CalRgb),
    Lab(Lab),
    Indexed { base: u16, hival: u16 },
    Separation(Separation),
    Palette,
    Program,
    // The names stand in the first bytes of the record's room, `count` of them, each its length and its bytes, straight one after the other.
    DeviceN { alternate: u16, count: u8 },
}

// A record: its own number, its body, and room for bytes, with a Separation's name in the first 128 places, a DeviceN's names in the first 500, or a part of a
// palette or of a program's text in all 504.
#[derive(Clone, Copy, Debug, PartialEq, Eq)]
pub struct Record {
    pub own: u16,
    pub body: Body,
    pub bytes: [u8; 504],
}
