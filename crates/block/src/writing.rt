// Writing a block: every test first, so that a refusal alters no byte, then head, body and check.
ghost use Rattle.std.specs.Prelude.{◌≡◌, [], ◌∷◌, length};
ghost use Rattle.layout.specs.Field.{one, two, puts};
ghost use Rattle.record.specs.Layout.{check, block_of};
ghost use Rattle.block.specs.Single.{meaning, outcome_of, write_number, write_out};

use fields::put_body;
use fixed::Refusal;
use layout::{put_one, put_two};
use record::Record;
use rules::fault;
use sums::sum_up;

fn put_head(out: &mut [u8], kind: u8, own: u16)
    requires { length out.old ≡ 512 }
    ensures { out.new ≡ puts out.old 0 (one kind ∷ one 0 ∷ two own ∷ []) }
{
    put_one(out, 0, kind);
    put_one(out, 1, 0);
    put_two(out, 2, own as u32);
}

fn put_check(out: &mut [u8])
    requires { length out.old ≡ 512 }
    ensures { out.new ≡ puts out.old 508 (check out.old) }
{
    let s = sum_up(out, 0);
    put_two(out, 508, s.plain);
    put_two(out, 510, s.weighed);
}

// Stores the block of a record, whatever is to be refused of it.
pub fn put_record(r: Record, out: &mut [u8])
    requires { length out.old ≡ 512 }
    ensures { out.new ≡ block_of r }
{
    let kind = r.body.kind();
    put_head(out, kind, r.own);
    put_body(out, r.body, &r.bytes);
    put_check(out);
}

// Writes a record into the 512 bytes of out.
pub fn write(r: Record, out: &mut [u8]) -> Result<(), Refusal>
    ensures replies { meaning result ≡ outcome_of (write_number r out.old) }
    ensures leaves { out.new ≡ write_out r out.old }
{
    if out.len() != 512 {
        return Err(Refusal::Room);
    }
    fault(r)?;
    put_record(r, out);
    Ok(())
}
