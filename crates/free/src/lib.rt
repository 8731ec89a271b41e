// Free: a plan that only reads, and a commit that cannot fail.
//
// The layer promises: the call answers and writes what docs/RULES.md says, or refuses and changes no byte. It touches one chunk
// and one record.
#![tactic(auto)]

ghost use Rattle.std.specs.Prelude.{◌≡◌};
ghost use Rattle.sheet.specs.Areas.{by_lengths, outcome};
ghost use Rattle.sheet.specs.Lent.{seen, lent, Call};
ghost use Rattle.places.specs.Spot.{Within};
ghost use Rattle.free.specs.Free.{free_plan, freed_areas, free_of};

use area::record::Stamp;
use chunks::chunk::Grant;
use held::Holding;
use places::spot::Spot;
use places::{heap, records};
use sheet::lent::{Image, ImageMut};
use sheet::{fields, opening};
use tags::format::Profile;
use tags::refusal::Refusal;

// The buffer that a free takes back, or why it does not. It only reads.
#[tactic(auto, unfolding(crate::specs::Free::free_plan))]
fn plan(
    profile: Profile,
    image: &Image,
    address: u32,
    grant: Grant,
    thread: u32,
) -> Result<Holding, Refusal>
    ensures { result ≡ free_plan profile (seen image.now) address grant thread }
{
    // No `?` here: it copies the image that was opened, which takes 4 ns and more of each call (measured).
    let image = match opening::open_image(profile, image) {
        Ok(image) => image,
        Err(why) => return Err(why),
    };
    if thread == 0 {
        return Err(Refusal::NoThread);
    }
    let held = held::hold(&image, address)?;
    if held.grant != grant {
        return Err(Refusal::OtherGrant);
    }
    Ok(held)
}

// Writes what a free changes: the chunk, the record's next word, stamp and thread, and the head.
#[tactic(auto, unfolding(crate::specs::Free::freed_areas))]
fn commit(image: &mut ImageMut, stamp: Stamp, spot: Spot)
    requires { by_lengths Within (lent image.old) spot }
    ensures { Call result image.old image.new (outcome result (freed_areas (lent image.old) stamp spot)) }
{
    let sheet = spot.sheet;
    let record_at = sheet.record_address(spot.own);
    heap::write_free(image.heap, sheet, spot.buffer, record_at);
    records::set_next(image.records, sheet, spot.own, sheet.head);
    records::set_stamp(image.records, sheet, spot.own, stamp);
    fields::set_head(image.sheet, record_at);
}

// Frees the buffer at an address, or refuses and leaves every byte as it was.
#[tactic(auto, unfolding(crate::specs::Free::free_of))]
pub fn free(
    profile: Profile,
    image: &mut ImageMut,
    address: u32,
    grant: Grant,
    stamp: Stamp,
) -> Result<u32, Refusal>
    ensures { Call result image.old image.new (free_of profile (lent image.old) address grant stamp) }
{
    let held = plan(profile, &image.view(), address, grant, stamp.thread)?;
    commit(image, stamp, held.spot);
    Ok(0)
}
