// Storing numbers that stand together: a triple, a number for each component of an alternate space, the ranges of a* and b*.
#![tactic(auto, unfolding(layout::specs::Field::puts))]

ghost use Rattle.std.specs.Prelude.{◌≡◌, [], ◌+◌, ◌≤◌, length};
ghost use Rattle.layout.specs.Field.{puts};
ghost use Rattle.record.specs.Layout.{triple, ranges, four};

use layout::put_num;
use record::{Four, Ranges, Triple};

// A triple is stored as three numbers.
pub fn put_triple(out: &mut [u8], at: usize, t: Triple)
    requires { at + 12 ≤ length out.old }
    ensures { out.new ≡ puts out.old at (triple t []) }
{
    put_num(out, at, t.x);
    put_num(out, at + 4, t.y);
    put_num(out, at + 8, t.z);
}

// A number for each component of an alternate space, four in all.
pub fn put_four(out: &mut [u8], at: usize, q: Four)
    requires { at + 16 ≤ length out.old }
    ensures { out.new ≡ puts out.old at (four q []) }
{
    put_num(out, at, q.a);
    put_num(out, at + 4, q.b);
    put_num(out, at + 8, q.c);
    put_num(out, at + 12, q.d);
}

// The ranges are stored as four numbers.
pub fn put_ranges(out: &mut [u8], at: usize, q: Ranges)
    requires { at + 16 ≤ length out.old }
    ensures { out.new ≡ puts out.old at (ranges q []) }
{
    put_four(
        out,
        at,
        Four {
            a: q.amin,
            b: q.amax,
            c: q.bmin,
            d: q.bmax,
        },
    );
}
