// Numbers in bytes, read and stored: big-endian, signed ones in two's complement (FORMAT.md, The page). The definitions are those of `fixed`, Bytes.
#![tactic(auto)]

mod bytes;

pub use bytes::{
    byte_at, byte_in, number_at, number_in, of_signed, put_number, put_two, to_signed, two_at,
    two_in,
};
