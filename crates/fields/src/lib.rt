// A record's fields, stored in a block of 512 bytes: what each kind of colour space has from byte 4 on, and zeros after it up to the check.
#![tactic(auto)]

mod body;
mod numbers;

pub use body::put_body;
