// The two round trips: a record that is written is read back as it was, and a block that is read is written as it stood.
ghost use Rattle.std.specs.Prelude.{◌≡◌};
ghost use Rattle.record.specs.Rules.{fault_of};
ghost use Rattle.block.specs.Single.{meaning, found_in, outcome_of, found_of, copy_number, copy_out};

use crate::reading::read;
use crate::writing::write;
use fixed::Refusal;
use record::{Record, record_fits};

// Writes a record into a block of its own, and reads that: the record comes back, or the refusal.
pub fn written_and_read(r: Record) -> Result<Record, Refusal>
    ensures replies { meaning result ≡ outcome_of (fault_of r) }
    ensures finds { found_in result ≡ found_of (fault_of r) r }
{
    record_fits(r);
    let mut out = [0u8; 512];
    write(r, &mut out)?;
    read(&out)
}

// Reads a block, and writes its record into out: the same bytes come out, or the refusal.
pub fn read_and_written(b: &[u8], out: &mut [u8]) -> Result<(), Refusal>
    ensures replies { meaning result ≡ outcome_of (copy_number b.now out.old) }
    ensures leaves { out.new ≡ copy_out b.now out.old }
{
    let r = read(b)?;
    write(r, out)
}
