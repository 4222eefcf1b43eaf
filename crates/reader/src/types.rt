// What is read so far of a designer's text, as far as it is passed by value.

// What the next token may be.
#[derive(Clone, Copy, Debug, PartialEq, Eq)]
pub enum Want {
    Top,
    Family,
    Dict,
    Key,
    Value,
    Items,
    Shut,
    Space,
    Hival,
    Lookup,
    Ink,
}

// The sorts of token. A keyword may stand nowhere.
#[derive(Clone, Copy, Debug, PartialEq, Eq)]
pub enum Sort {
    Keyword,
    Name,
    Number,
    Text,
    ArrayOpens,
    ArrayCloses,
    DictOpens,
    DictCloses,
}

// The entry of a dictionary that is read: its key, how many of its numbers were read, which keys were met, and the exponent.
#[derive(Clone, Copy, Debug, PartialEq, Eq)]
pub struct Entry {
    pub key: u32,
    pub index: u32,
    pub mask: u32,
    pub exponent: u8,
}

// The inner space: its count of components and its reference; and the hival of the Indexed space around it.
#[derive(Clone, Copy, Debug, PartialEq, Eq)]
pub struct Inner {
    pub count: u8,
    pub code: u16,
    pub hival: u16,
}

// Between two tokens: what may stand next, the kind of the space, how many blocks are made, and the ring of open spaces.
#[derive(Clone, Copy, Debug, PartialEq, Eq)]
pub struct Head {
    pub want: Want,
    pub kind: u8,
    pub entry: Entry,
    pub inner: Inner,
    pub next: u8,
    pub top: u8,
    pub deep: u8,
}
