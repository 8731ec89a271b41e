// A buffer that a client holds: found by its address, with its record and its grant.
//
// The layer promises: of an open image, the buffer at an address is handed out with its own record and the grant that its chunk was
// found with, or it is refused by the tests that free, store and show have alike, in docs/RULES.md's order. It reads one chunk and one
// record, and writes nothing.
#![tactic(auto)]

ghost use Rattle.std.specs.Prelude.{◌≡◌, ◌<◌, length};
ghost use Rattle.tags.specs.Tag.{pattern_of};
ghost use Rattle.tags.specs.Verdict.{told_of};
ghost use Rattle.tags.specs.declared.verdict.Verdict.{Verdict};
ghost use Rattle.chunks.specs.Chunk.{ChunkLength, tag_at};
ghost use Rattle.sheet.specs.Areas.{chunk_in};
ghost use Rattle.sheet.specs.Lent.{image_open};
ghost use Rattle.held.specs.Held.{held_as, held_by, held_chunk, held_of};

use chunks::chunk::Grant;
use chunks::{chunk, judge};
use places::spot::Spot;
use places::{heap, records};
use sheet::open_image::OpenImage;
use tags::refusal::Refusal;
use tags::verdict::{Told, Verdict};

// An allocated buffer of an open image with its own record, and its grant.
#[derive(Clone, Copy, Debug, PartialEq, Eq)]
pub struct Holding {
    pub spot: Spot,
    pub grant: Grant,
}

// A chunk that is found whole or allocated is held as such, and any other verdict refuses.
fn held_as(t: Told, spot: Spot) -> Result<Holding, Refusal>
    ensures { (v : Verdict) → t ≡ told_of v → result ≡ held_as v spot }
{
    let grant = match t.number {
        1 => Grant::Whole,
        2 => Grant::Sized(t.value),
        _ => return Err(Refusal::Damage(Verdict::from(t))),
    };
    Ok(Holding { spot, grant })
}

// The last step: the chunk's pattern and its own bytes. A header stays out of the way of every verdict but the one that it is for: then
// no table of all verdicts lies on the way to a buffer that is held.
fn held_by(chunk: &[u8], spot: Spot) -> Result<Holding, Refusal>
    requires { ChunkLength (length chunk.now) }
    ensures { result ≡ held_by (pattern_of (tag_at spot.sheet.format chunk.now)) chunk.now spot }
{
    let f = spot.sheet.format;
    let tag = chunk::read_tag(f, chunk);
    if tag.is_free() {
        return Err(Refusal::NotAllocated);
    }
    if !tag.is_allocated() {
        return Err(Refusal::Damage(Verdict::BadTag));
    }
    let t = judge::judge_coded(f, chunk);
    if t.number == 2 {
        return held_as(judge::judge_header(f, chunk, t), spot);
    }
    held_as(t, spot)
}

// The step before it: the record that T0 names must name the buffer.
#[tactic(auto, using(geometry::proofs::Sheets::lawful_known, geometry::proofs::Sheets::chunk_length, places::proofs::Chunks::chunk_long), unfolding(crate::specs::Held::held_chunk))]
fn held_chunk(image: &OpenImage, address: u32, buffer: usize) -> Result<Holding, Refusal>
    requires { buffer < image.now.sheet.count }
    ensures { result ≡ held_chunk (image_open image.now)
        (chunk_in image.now.sheet image.now.heap.now buffer) address buffer }
{
    let sheet = image.sheet;
    let chunk = heap::chunk(image.heap, sheet, buffer);
    let tag = chunk::read_tag(sheet.format, chunk);
    let Some(own) = sheet.find_record(tag.t0) else {
        return Err(Refusal::Damage(Verdict::BadTag));
    };
    if records::buffer(image.records, sheet, own) != address {
        return Err(Refusal::Damage(Verdict::BadTag));
    }
    held_by(chunk, Spot { sheet, buffer, own })
}

// The buffer at an address of an open image: the tests that free, store and show have alike.
#[tactic(auto, unfolding(crate::specs::Held::held_of))]
pub fn hold(image: &OpenImage, address: u32) -> Result<Holding, Refusal>
    ensures { result ≡ held_of (image_open image.now) address }
{
    let Some(buffer) = image.sheet.find_buffer(address) else {
        return Err(Refusal::NoSuchBuffer);
    };
    held_chunk(image, address, buffer)
}
