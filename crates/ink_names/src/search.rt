// The lowest block of a page that has a name.
ghost use Rattle.std.specs.Prelude.{◌≡◌};
ghost use Rattle.page.specs.Outcomes.{accepted};
ghost use Rattle.page.specs.Validation.{validated};
ghost use Rattle.ink_names.specs.Search.{lowest as lowest_of};

use crate::names::is_ink;

// The lowest block of an accepted page that is an ink of this name.
pub fn lowest(page: &[u8], name: &[u8]) -> Option<u32>
    requires { validated page.now ≡ accepted }
    ensures { result ≡ lowest_of page.now name.now }
{
    let n = (page.len() / 512) as u32;
    for i in 0..n {
        if is_ink(page, name, i) {
            return Some(i);
        }
    }
    None
}
