// What holds of every record because of its type alone: 504 bytes of room, and each number in the range of its type.
ghost use Rattle.record.specs.Fits.{Fits};

use crate::types::Record;

// A record has what its type says. A caller learns it from the promise.
// Kept: `written_and_read` of `block` calls it, and no other promise that reaches it says the same of a record.
pub fn record_fits(r: Record)
    ensures { Fits r }
{
    r.body.kind();
}
