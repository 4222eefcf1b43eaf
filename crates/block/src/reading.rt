// Reading a block by itself.
ghost use Rattle.std.specs.Prelude.{◌≡◌};
ghost use Rattle.block.specs.Single.{meaning, found_in, outcome_of, read_number, read_found};

use fixed::Refusal;
use record::{Record, record_at};
use rules::{fault, is_well_laid};
use sums::is_checked;

// Reads the record of the 512 bytes b.
pub fn read(b: &[u8]) -> Result<Record, Refusal>
    ensures replies { meaning result ≡ outcome_of (read_number b.now) }
    ensures finds { found_in result ≡ read_found b.now }
{
    if b.len() != 512 {
        return Err(Refusal::Room);
    }
    if !is_checked(b, 0) {
        return Err(Refusal::Check);
    }
    if !is_well_laid(b, 0) {
        return Err(Refusal::Form);
    }
    let r = record_at(b, 0);
    fault(r)?;
    Ok(r)
}
