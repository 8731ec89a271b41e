// The format of a record: next at 0, the buffer's address at 4, the slab at 8, the cache at 12, the stamp, one number of eight
// bytes, at 16, the thread at 24; the rest is not read. How many stack words end it is told by the profile, and so is its length.
ghost use Rattle.std.specs.Prelude.{◌≡◌, ◌+◌, ◌-◌, ◌*◌, ◌≤◌, length};
ghost use Rattle.std.proofs.lemmas.List.Edits.{sets};
ghost use Rattle.words.specs.Word.{part, number_at};
ghost use Rattle.area.specs.Place.{place_of, PartAt};
ghost use Rattle.area.specs.Record.{record_size, RecordIn, record_word, stamp_number, with_next, stamped, record_bytes};

use crate::place;
use tags::format::{Format, Profile};
use words::word::Order;

// With fourteen stack words from 40 on, and with fifteen.
const KERNEL_SIZE: usize = 96;

const USERLAND_SIZE: usize = 100;

pub const NEXT: usize = 0;

pub const BUFFER: usize = 4;

const SLAB: usize = 8;

const CACHE: usize = 12;

const STAMP: usize = 16;

const THREAD: usize = 24;

// What a call leaves in the record that it changes: when it was made, and by which thread.
#[derive(Clone, Copy, Debug, PartialEq, Eq)]
pub struct Stamp {
    pub uptime: u32,
    pub thread: u32,
}

// How long a record is.
#[tactic(auto, unfolding(crate::specs::Record::record_size))]
pub fn size(p: Profile) -> usize
    ensures { result ≡ record_size p }
{
    match p {
        Profile::Kernel => KERNEL_SIZE,
        Profile::Userland => USERLAND_SIZE,
    }
}

// The record, of the first `count` of `size` bytes, whose address is `word`. The two lengths that records have are told apart, so that
// the division is one by a constant.
pub fn find(base: u32, size: usize, count: usize, word: u32) -> Option<usize>
    ensures { result ≡ place_of base size count word }
{
    if size == KERNEL_SIZE {
        return place::find(base, KERNEL_SIZE, count, word);
    }
    if size == USERLAND_SIZE {
        return place::find(base, USERLAND_SIZE, count, word);
    }
    place::find(base, size, count, word)
}

// Where record j stands in the record area.
pub fn place(p: Profile, j: usize) -> usize
    requires { j * record_size p ≤ 18446744073709551615 }
    ensures { result ≡ j * record_size p }
{
    j * size(p)
}

// The word at an address, read through the window of the records, which stand from `base` on, and turned into the image's order. It
// lies whole inside, so that it is a word, and the other case does not arise.
pub fn read_at(o: Order, records: &[u8], base: u32, address: u32) -> u32
    requires base_le_address { base ≤ address }
    requires address_bound { address + 4 ≤ base + length records.now }
    ensures { result ≡ number_at o 4 records.now (address - base) }
{
    match window::read_word(records, base, address) {
        Some(v) => o.reordered(v),
        None => 0,
    }
}

// The word at an offset of record j, which has an index and is read by its place.
#[tactic(auto, unfolding(crate::specs::Record::record_word))]
pub fn read(f: Format, records: &[u8], j: usize, offset: usize) -> u32
    requires record_in { RecordIn f.profile j (length records.now) }
    requires offset_bound { offset + 4 ≤ record_size f.profile }
    ensures { result ≡ record_word f records.now j offset }
{
    f.order.read_u32(records, place(f.profile, j) + offset)
}

// The timestamp of record j.
#[tactic(auto, using(crate::proofs::Records::record_least), unfolding(crate::specs::Record::stamp_number))]
pub fn read_stamp(f: Format, records: &[u8], j: usize) -> u64
    requires { RecordIn f.profile j (length records.now) }
    ensures { result ≡ stamp_number f records.now j }
{
    f.order.read_u64(records, place(f.profile, j) + STAMP)
}

// Record j, as a part of the record area.
#[tactic(auto, using(crate::proofs::Records::lent_record))]
pub fn whole<'a>(p: Profile, records: &'a [u8], j: usize) -> &'a [u8]
    requires { RecordIn p j (length records.now) }
    ensures bytes { result.now ≡ part records.now (j * record_size p) (record_size p) }
    ensures place { PartAt records.entry (j * record_size p) result }
{
    let at = place(p, j);
    &records[at..at + size(p)]
}

// Writes the next word of record j.
#[tactic(auto, using(crate::proofs::Records::record_least), unfolding(crate::specs::Record::with_next))]
pub fn set_next(f: Format, records: &mut [u8], j: usize, next: u32)
    requires { RecordIn f.profile j (length records.old) }
    ensures { records.new ≡ with_next f records.old j next }
{
    f.order.write_u32(records, place(f.profile, j) + NEXT, next);
}

// Writes the stamp, whose high half is 0, and the thread of record j.
#[tactic(auto, using(crate::proofs::Records::record_least), unfolding(crate::specs::Record::stamped))]
pub fn set_stamp(f: Format, records: &mut [u8], j: usize, s: Stamp)
    requires { RecordIn f.profile j (length records.old) }
    ensures { records.new ≡ stamped f records.old j s }
{
    let at = place(f.profile, j);
    f.order.write_u64(records, at + STAMP, s.uptime as u64);
    f.order.write_u32(records, at + THREAD, s.thread);
}

// Writes a record, given as its bytes: its next word, the address of its buffer and the cache, and 0 elsewhere. The two lengths are
// told apart, so that the fill is a few stores and no call.
#[tactic(auto, using(crate::proofs::Records::record_least), unfolding(crate::specs::Record::record_size))]
fn write_whole(f: Format, bytes: &mut [u8], next: u32, buffer: u32, cache: u32)
    requires { length bytes.old ≡ record_size f.profile }
    ensures { bytes.new ≡ record_bytes f next buffer cache }
{
    f.order.write_u32(bytes, NEXT, next);
    f.order.write_u32(bytes, BUFFER, buffer);
    f.order.write_u32(bytes, SLAB, 0);
    f.order.write_u32(bytes, CACHE, cache);
    match f.profile {
        Profile::Kernel => bytes[STAMP..KERNEL_SIZE].fill(0),
        Profile::Userland => bytes[STAMP..USERLAND_SIZE].fill(0),
    }
}

// Writes record j whole.
#[tactic(auto, using(crate::proofs::Records::lent_record))]
pub fn write(f: Format, records: &mut [u8], j: usize, next: u32, buffer: u32, cache: u32)
    requires { RecordIn f.profile j (length records.old) }
    ensures { records.new
        ≡ sets records.old (j * record_size f.profile) (record_bytes f next buffer cache) }
{
    let at = place(f.profile, j);
    let end = at + size(f.profile);
    write_whole(f, &mut records[at..end], next, buffer, cache);
}
