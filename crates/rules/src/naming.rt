// Refusal 4 of the names of a DeviceN: none is All, and two are equal only where they are None.
ghost use Rattle.std.specs.Prelude.{◌≡◌, not, ◌&&◌, ◌||◌, ◌≤◌};
ghost use Rattle.fixed.specs.Loops.{all_between};
ghost use Rattle.record.specs.Reading.{the_none, the_all, name_is, same_names, name_place};
ghost use Rattle.record.specs.Rules.{names_lawful};

use octets::byte_at;
use record::{is_name, is_same_name, name_place};

// Whether none of the first k names is that at q.
fn is_new(s: &[u8], k: u32, q: u32) -> bool
    requires { (k ≤ 255) × (q ≤ 65536) }
    ensures { result ≡ all_between (λ j. not (same_names s.now (name_place s.now j) q)) 0 k }
{
    let mut at: u32 = 0;
    for _ in 0..k {
        if is_same_name(s, at, q) {
            return false;
        }
        at += 1 + byte_at(s, 0, at);
    }
    true
}

// Whether name k is not All, and None or none of those before it.
fn is_fair(s: &[u8], k: u32) -> bool
    requires { k ≤ 255 }
    ensures { result ≡ (not (name_is s.now (name_place s.now k) the_all) && (name_is s.now (name_place s.now k) the_none || all_between (λ j. not (same_names s.now (name_place s.now j) (name_place s.now k))) 0 k)) }
{
    let q = name_place(s, k);
    !is_name(s, 0, q, b"All") && (is_name(s, 0, q, b"None") || is_new(s, k, q))
}

// Whether the first n names are in order.
#[tactic(auto, unfolding(record::specs::Rules::names_lawful))]
pub fn are_lawful(s: &[u8], n: u32) -> bool
    requires { n ≤ 255 }
    ensures { result ≡ names_lawful s.now n }
{
    for k in 0..n {
        if !is_fair(s, k) {
            return false;
        }
    }
    true
}
