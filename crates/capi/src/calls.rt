// The calls that a client makes.
ghost use Rattle.std.specs.Prelude.{◌≡◌};
ghost use Rattle.tags.specs.Format.{profile_if, format_if};
ghost use Rattle.area.specs.Record.{stamp_of};
ghost use Rattle.sheet.specs.Areas.{areas, outcome, answered};
ghost use Rattle.layout.specs.Layout.{lay_out_of};
ghost use Rattle.allocation.specs.Allocate.{allocate_of};
ghost use Rattle.free.specs.Free.{free_of};
ghost use Rattle.client.specs.Store.{store_of};
ghost use Rattle.sheet.specs.Fields.{sheet_of};
ghost use Rattle.client.specs.Show.{shown_of, StartsAt};
ghost use Rattle.capi.specs.Answer.{grant_of, answer_word, show_word};

use crate::answer;
use allocation::allocate;
use area::record::Stamp;
use chunks::chunk::Grant;
use client::{show, store};
use sheet::lent::{HeapMut, Image, ImageMut};
use tags::format::{Format, Profile};

// What is asked for: where it is the whole buffer, the size is not read.
fn grant(whole: bool, size: u32) -> Grant
    ensures { result ≡ grant_of whole size }
{
    if whole {
        Grant::Whole
    } else {
        Grant::Sized(size)
    }
}

// Lays out an image in which every buffer is free, by the rules of a profile, its words low byte first or high byte first.
pub fn cg_lay_out(
    userland: bool,
    low_first: bool,
    cache: u32,
    heap_base: u32,
    record_base: u32,
    size: u32,
    count: u32,
    sheet: &mut [u8],
    heap: &mut [u8],
    records: &mut [u8],
) -> u64
    ensures { outcome result (areas sheet.new heap.new records.new)
        ≡ answered answer_word
        (lay_out_of (areas sheet.old heap.old records.old) (format_if userland low_first)
        cache heap_base record_base size count) }
{
    let f = Format::of(userland, low_first);
    let mut image = ImageMut {
        sheet,
        heap,
        records,
    };
    answer::word(layout::lay_out(f, cache, heap_base, record_base, size, count, &mut image))
}

// Grants a buffer. The value is its address.
pub fn cg_allocate(
    userland: bool,
    sheet: &mut [u8],
    heap: &mut [u8],
    records: &mut [u8],
    whole: bool,
    size: u32,
    uptime: u32,
    thread: u32,
) -> u64
    ensures { outcome result (areas sheet.new heap.new records.new)
        ≡ answered answer_word
        (allocate_of (profile_if userland) (areas sheet.old heap.old records.old)
        (grant_of whole size) (stamp_of uptime thread)) }
{
    let granted = Stamp { uptime, thread };
    let mut image = ImageMut {
        sheet,
        heap,
        records,
    };
    answer::word(allocate::allocate(
        Profile::from(userland),
        &mut image,
        grant(whole, size),
        granted,
    ))
}

// Frees the buffer at an address.
pub fn cg_free(
    userland: bool,
    sheet: &mut [u8],
    heap: &mut [u8],
    records: &mut [u8],
    address: u32,
    whole: bool,
    size: u32,
    uptime: u32,
    thread: u32,
) -> u64
    ensures { outcome result (areas sheet.new heap.new records.new)
        ≡ answered answer_word
        (free_of (profile_if userland) (areas sheet.old heap.old records.old)
        address (grant_of whole size) (stamp_of uptime thread)) }
{
    let freed = Stamp { uptime, thread };
    let mut image = ImageMut {
        sheet,
        heap,
        records,
    };
    answer::word(free::free(
        Profile::from(userland),
        &mut image,
        address,
        grant(whole, size),
        freed,
    ))
}

// Stores bytes at an offset in the client's bytes of the buffer at an address.
pub fn cg_store(
    userland: bool,
    sheet: &[u8],
    heap: &mut [u8],
    records: &[u8],
    address: u32,
    offset: u32,
    bytes: &[u8],
) -> u64
    ensures { outcome result (areas sheet.now heap.new records.now)
        ≡ answered answer_word
        (store_of (profile_if userland) (areas sheet.now heap.old records.now) address offset bytes.now) }
{
    let mut image = HeapMut {
        sheet,
        heap,
        records,
    };
    answer::word(store::store(Profile::from(userland), &mut image, address, offset, bytes))
}

// Counts the client's bytes of the buffer at an address. The value is their number; bits 16 to 31 say where in the buffer they
// start. The buffer itself stands in the heap at the address less the heap's base.
pub fn cg_show(userland: bool, sheet: &[u8], heap: &[u8], records: &[u8], address: u32) -> u64
    ensures answer { result
        ≡ show_word (shown_of (profile_if userland) (areas sheet.now heap.now records.now) address) }
    ensures starts { StartsAt (sheet_of (profile_if userland) sheet.now).heap_base address
        (shown_of (profile_if userland) (areas sheet.now heap.now records.now) address) }
{
    let image = Image {
        sheet,
        heap,
        records,
    };
    match show::find_client(Profile::from(userland), &image, address) {
        Ok(s) => answer::shown(s.start as u32, s.len as u32),
        Err(why) => answer::refused(why),
    }
}
