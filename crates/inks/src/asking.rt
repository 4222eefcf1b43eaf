// Asking for an ink: what it comes to, and the part of a page that is its name.
ghost use Rattle.std.specs.Prelude.{◌≡◌};
ghost use Rattle.page.specs.Outcomes.{accepted};
ghost use Rattle.page.specs.Validation.{validated};
ghost use Rattle.ink_names.specs.Replies.{meaning};
ghost use Rattle.ink_names.specs.Search.{ink_on, found_ink};
ghost use Rattle.ink_names.specs.Parts.{NamePart};

use ink_names::{AskError, Place, Side, lowest, name_part};
use page::validate;

// The ink on two accepted pages.
fn find_in_both(job: &[u8], house: &[u8], name: &[u8]) -> Result<Place, AskError>
    requires { (validated job.now ≡ accepted) × (validated house.now ≡ accepted) }
    ensures { meaning result ≡ ink_on job.now house.now name.now }
{
    if let Some(block) = lowest(job, name) {
        return Ok(Place {
            page: Side::Job,
            block,
        });
    }
    if let Some(block) = lowest(house, name) {
        return Ok(Place {
            page: Side::House,
            block,
        });
    }
    Err(AskError::NoSuchInk)
}

// Asks for an ink by its name: the refusal of the job's page, then that of the house page, then the lowest block of the job's page that has the name, else of
// the house page.
pub fn find(job: &[u8], house: &[u8], name: &[u8]) -> Result<Place, AskError>
    ensures { meaning result ≡ found_ink job.now house.now name.now }
{
    if let Err(refused) = validate(job) {
        return Err(AskError::JobRefused(refused));
    }
    if let Err(refused) = validate(house) {
        return Err(AskError::HouseRefused(refused));
    }
    find_in_both(job, house, name)
}

// The name of the ink that is asked for, as it stands in the job's page, else in the house page: a part of that page, and an empty one where `find` refuses.
pub fn name_in<'a>(job: &'a [u8], house: &'a [u8], name: &[u8]) -> &'a [u8]
    ensures { NamePart job.entry house.entry (found_ink job.now house.now name.now) result }
{
    match find(job, house, name) {
        Ok(found) => match found.page {
            Side::Job => name_part(job, found.block, name.len()),
            Side::House => name_part(house, found.block, name.len()),
        },
        Err(_) => &job[0..0],
    }
}
