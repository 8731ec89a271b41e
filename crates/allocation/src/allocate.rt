// Allocate: a plan that only reads, and a commit that cannot fail.
ghost use Rattle.std.specs.Prelude.{◌≡◌, length, IfOk};
ghost use Rattle.chunks.specs.Chunk.{lawful_size};
ghost use Rattle.geometry.specs.Limits.{Lawful};
ghost use Rattle.sheet.specs.Areas.{by_lengths, outcome};
ghost use Rattle.sheet.specs.Lent.{seen, lent, image_open, Call};
ghost use Rattle.allocation.specs.Allocate.{taken_chunk, taken_head, taken_of, allocate_plan, Takes, granted_areas, allocate_of};

use area::record::Stamp;
use chunks::chunk::Grant;
use chunks::{chunk, header, judge};
use places::spot::Spot;
use places::{heap, records};
use sheet::lent::{Image, ImageMut};
use sheet::open_image::OpenImage;
use sheet::{fields, opening};
use tags::format::Profile;
use tags::refusal::Refusal;
use tags::verdict::Verdict;

// Whether a request is of lawful size.
fn lawful_size(p: Profile, grant: Grant, size: usize) -> bool
    ensures { result ≡ lawful_size p size grant }
{
    match grant {
        Grant::Whole => true,
        Grant::Sized(q) => 1 <= q && q as usize <= header::request_most(p, size),
    }
}

// The last step: the chunk of the head record's buffer. One that is found free is taken.
#[tactic(auto, using(tags::proofs::Verdicts::told_back, tags::proofs::Tags::is_free_lem), unfolding(crate::specs::Allocate::taken_chunk))]
fn take_chunk(chunk: &[u8], spot: Spot) -> Result<Spot, Refusal>
    requires chunk_len { length chunk.now ≡ spot.sheet.chunk }
    requires lawful { Lawful spot.sheet }
    ensures { result ≡ taken_chunk chunk.now spot }
{
    let f = spot.sheet.format;
    let tag = chunk::read_tag(f, chunk);
    if tag.t0 != spot.sheet.head {
        return Err(Refusal::Damage(Verdict::BadTag));
    }
    // Two tests: a match on the pattern was slower, by seven instructions in every call.
    if !tag.is_free() {
        let found = if tag.is_allocated() {
            Verdict::OnChain
        } else {
            Verdict::BadTag
        };
        return Err(Refusal::Damage(found));
    }
    match Verdict::from(judge::judge_free(f, chunk)) {
        Verdict::Free => Ok(spot),
        found => Err(Refusal::Damage(found)),
    }
}

// The step before it: the head must be a record's address, and that record's word a buffer's.
#[tactic(auto, unfolding(crate::specs::Allocate::taken_head))]
fn take_head(image: &OpenImage) -> Result<Spot, Refusal>
    ensures { result ≡ taken_head (image_open image.now) }
{
    let g = image.sheet;
    let Some(own) = g.find_record(g.head) else {
        return Err(Refusal::BrokenHead);
    };
    let Some(buffer) = g.find_buffer(records::buffer(image.records, g, own)) else {
        return Err(Refusal::Damage(Verdict::NotOneRecord));
    };
    let spot = Spot {
        sheet: g,
        buffer,
        own,
    };
    take_chunk(heap::chunk(image.heap, g, buffer), spot)
}

// What an allocation of an open image will do.
#[tactic(auto, unfolding(crate::specs::Allocate::taken_of))]
fn take(image: &OpenImage, grant: Grant) -> Result<Spot, Refusal>
    ensures { result ≡ taken_of (image_open image.now) grant }
{
    let g = image.sheet;
    if !lawful_size(g.format.profile, grant, g.size) {
        return Err(Refusal::BadSize);
    }
    if g.head == 0 {
        return Err(Refusal::NoRoom);
    }
    take_head(image)
}

// What an allocation will do. It only reads.
#[tactic(auto, unfolding(crate::specs::Allocate::allocate_plan))]
fn plan(profile: Profile, image: &Image, grant: Grant, thread: u32) -> Result<Spot, Refusal>
    ensures spot { result ≡ allocate_plan profile (seen image.now) grant thread }
    ensures within { IfOk result (by_lengths Takes (seen image.now) grant) }
{
    // No `?` here: it copies the image that was opened, which takes 11 to 14 instructions of each call (counted).
    let image = match opening::open_image(profile, image) {
        Ok(image) => image,
        Err(why) => return Err(why),
    };
    if thread == 0 {
        return Err(Refusal::NoThread);
    }
    take(&image, grant)
}

// Writes what an allocation changes: the chunk, the record's stamp and thread, and the head.
#[tactic(auto, unfolding(crate::specs::Allocate::granted_areas))]
fn commit(image: &mut ImageMut, grant: Grant, stamp: Stamp, spot: Spot)
    requires { by_lengths Takes (lent image.old) grant spot }
    ensures { Call result image.old image.new
        (outcome result (granted_areas (lent image.old) grant stamp spot)) }
{
    let g = spot.sheet;
    let next = records::next(image.view().records, g, spot.own);
    heap::write_granted(image.heap, g, spot.buffer, g.head, grant);
    records::set_stamp(image.records, g, spot.own, stamp);
    fields::set_head(image.sheet, next);
}

// Grants a buffer and answers its address, or refuses and leaves every byte as it was.
#[tactic(auto, unfolding(crate::specs::Allocate::allocate_of))]
pub fn allocate(
    profile: Profile,
    image: &mut ImageMut,
    grant: Grant,
    stamp: Stamp,
) -> Result<u32, Refusal>
    ensures { Call result image.old image.new (allocate_of profile (lent image.old) grant stamp) }
{
    let spot = plan(profile, &image.view(), grant, stamp.thread)?;
    commit(image, grant, stamp, spot);
    Ok(spot.sheet.buffer_address(spot.buffer))
}
