// The bytes of a sheet: tagged fields, one after the other, eight in the short form and in the long form one more, the order.
// Where each stands follows from the lengths of those before it. The numbers of a sheet have the highest byte first, whatever
// the order of its image.
ghost use Rattle.std.specs.Prelude.{◌≡◌, ◌++◌, ◌+◌, ◌<◌, ◌≤◌, length};
ghost use Rattle.std.proofs.lemmas.List.Edits.{sets};
ghost use Rattle.sheet.specs.Fields.{field_number, field_is, fields_from, short_fields, shaped, ends_right, order_number, order_of, number_of, sheet_of, field_of, field, sheet_bytes, short_length, sheet_length, with_head};
ghost use Rattle.geometry.specs.Limits.{Lawful};

use geometry::sheet::Sheet;
use tags::format::{Format, Profile};
use words::word;
use words::word::Order;

// What a field has before its body, and with a body of four bytes, of two.
const BEFORE: usize = 3;

const LONG: usize = BEFORE + 4;

const SHORT: usize = BEFORE + 2;

// Where each field starts.
const CACHE: usize = 0;

const HEAP_BASE: usize = CACHE + LONG;

const RECORD_BASE: usize = HEAP_BASE + LONG;

const SIZE: usize = RECORD_BASE + LONG;

const CHUNK: usize = SIZE + SHORT;

const COUNT: usize = CHUNK + SHORT;

const HEAD: usize = COUNT + SHORT;

const FLAGS: usize = HEAD + LONG;

const ORDER: usize = FLAGS + SHORT;

// How long a sheet is, of the short form and of the long one.
const SHORT_FORM: usize = ORDER;

pub const LENGTH: usize = ORDER + BEFORE + 1;

// Whether the field at an offset has a tag and a length. Its first three bytes are compared at once, as the machine has them:
// the tag, then the length's high byte, which is 0, and its low byte.
#[tactic(auto, using(crate::proofs::Bytes::head_is))]
fn field_is(s: &[u8], at: usize, tag: u8, len: u8) -> bool
    requires { at + 4 ≤ length s.now }
    ensures { result ≡ field_is s.now at tag len }
{
    Order::LowFirst.read_u32(s, at) % 16777216 == (tag as u32) + 65536 * (len as u32)
}

// Whether the first eight fields have the stated tags and lengths.
fn has_eight(s: &[u8]) -> bool
    requires { short_length ≤ length s.now }
    ensures { result ≡ fields_from short_fields 0 s.now }
{
    field_is(s, CACHE, 1, 4)
        & field_is(s, HEAP_BASE, 2, 4)
        & field_is(s, RECORD_BASE, 3, 4)
        & field_is(s, SIZE, 4, 2)
        & field_is(s, CHUNK, 5, 2)
        & field_is(s, COUNT, 6, 2)
        & field_is(s, HEAD, 7, 4)
        & field_is(s, FLAGS, 8, 2)
}

// Whether nothing stands behind the eight fields, or the ninth.
#[tactic(auto, unfolding(crate::specs::Fields::ends_right))]
fn ends_right(s: &[u8]) -> bool
    requires { short_length ≤ length s.now }
    ensures { result ≡ ends_right s.now }
{
    s.len() == SHORT_FORM || s.len() == LENGTH && field_is(s, ORDER, 9, 1)
}

// Whether the sheet has one of the two forms: its length, and its stated tags and lengths.
#[tactic(auto, using(crate::proofs::Bytes::shapes))]
pub(crate) fn is_shaped(s: &[u8]) -> bool
    ensures { result ≡ shaped s.now }
{
    s.len() >= SHORT_FORM && has_eight(s) & ends_right(s)
}

// The body, of two bytes, of the field at an offset.
fn short_body(s: &[u8], at: usize) -> u16
    requires { at + 5 ≤ length s.now }
    ensures { result ≡ field_number 2 s.now (at + 3) }
{
    word::read_u16(s, at + BEFORE)
}

// The body, of four bytes, of the field at an offset.
fn long_body(s: &[u8], at: usize) -> u32
    requires { at + 7 ≤ length s.now }
    ensures { result ≡ field_number 4 s.now (at + 3) }
{
    Order::HighFirst.read_u32(s, at + BEFORE)
}

// The number of the order, 0 where the sheet has no such field.
#[tactic(auto, unfolding(crate::specs::Fields::order_number))]
pub(crate) fn order_number(s: &[u8]) -> u8
    ensures { result ≡ order_number s.now }
{
    if s.len() < LENGTH {
        return 0;
    }
    word::read_u8(s, ORDER + BEFORE)
}

// The order that a number stands for, and the number of an order.
fn order_of(v: u8) -> Order
    ensures { result ≡ order_of v }
{
    Order::from(v != 0)
}

fn number_of(o: Order) -> u8
    ensures { result ≡ number_of o }
{
    match o {
        Order::HighFirst => 0,
        Order::LowFirst => 1,
    }
}

// The numbers in the fields' bodies, and the profile, which a sheet does not have.
#[tactic(auto, unfolding(crate::specs::Fields::sheet_of))]
pub(crate) fn read(profile: Profile, s: &[u8]) -> Sheet
    requires { short_length ≤ length s.now }
    ensures { result ≡ sheet_of profile s.now }
{
    let order = order_of(order_number(s));
    Sheet {
        format: Format { profile, order },
        cache: long_body(s, CACHE),
        heap_base: long_body(s, HEAP_BASE),
        record_base: long_body(s, RECORD_BASE),
        size: short_body(s, SIZE) as usize,
        chunk: short_body(s, CHUNK) as usize,
        count: short_body(s, COUNT) as usize,
        head: long_body(s, HEAD),
        flags: short_body(s, FLAGS) as u32,
    }
}

// Writes a field: its tag, the length of its body, and its body.
fn write_field<const N: usize>(s: &mut [u8], at: usize, tag: u8, body: [u8; N])
    requires n_bound { N < 65536 }
    requires in_bounds { at + 3 + N ≤ length s.old }
    ensures { s.new ≡ sets s.old at (field_of tag body.entry) }
{
    word::write_u8(s, at, tag);
    word::write_u16(s, at + 1, N as u16);
    s[at + BEFORE..at + BEFORE + N].copy_from_slice(&body);
}

// Writes the first three fields, the addresses.
fn write_addresses(s: &mut [u8], g: Sheet)
    requires { length s.old ≡ sheet_length }
    ensures { s.new ≡ sets s.old 0
        (field 1 4 g.cache ++ field 2 4 g.heap_base ++ field 3 4 g.record_base) }
{
    write_field(s, CACHE, 1, g.cache.to_be_bytes());
    write_field(s, HEAP_BASE, 2, g.heap_base.to_be_bytes());
    write_field(s, RECORD_BASE, 3, g.record_base.to_be_bytes());
}

// Writes the next three, the sizes and the count.
fn write_sizes(s: &mut [u8], g: Sheet)
    requires s_len { length s.old ≡ sheet_length }
    requires lawful { Lawful g }
    ensures { s.new
        ≡ sets s.old 21 (field 4 2 g.size ++ field 5 2 g.chunk ++ field 6 2 g.count) }
{
    write_field(s, SIZE, 4, (g.size as u16).to_be_bytes());
    write_field(s, CHUNK, 5, (g.chunk as u16).to_be_bytes());
    write_field(s, COUNT, 6, (g.count as u16).to_be_bytes());
}

// Writes the last three, the chain head, the flags and the order.
fn write_state(s: &mut [u8], g: Sheet)
    requires s_len { length s.old ≡ sheet_length }
    requires lawful { Lawful g }
    ensures { s.new ≡ sets s.old 36
        (field 7 4 g.head ++ field 8 2 g.flags ++ field 9 1 (number_of g.format.order)) }
{
    write_field(s, HEAD, 7, g.head.to_be_bytes());
    write_field(s, FLAGS, 8, (g.flags as u16).to_be_bytes());
    write_field(s, ORDER, 9, [number_of(g.format.order)]);
}

// Writes the whole sheet, in the long form.
pub fn write(s: &mut [u8], g: Sheet)
    requires s_len { length s.old ≡ sheet_length }
    requires lawful { Lawful g }
    ensures { s.new ≡ sheet_bytes g }
{
    write_addresses(s, g);
    write_sizes(s, g);
    write_state(s, g);
}

// Writes the chain head of a sheet, of either form.
#[tactic(auto, unfolding(crate::specs::Fields::with_head))]
pub fn set_head(s: &mut [u8], head: u32)
    requires { short_length ≤ length s.old }
    ensures { s.new ≡ with_head s.old head }
{
    Order::HighFirst.write_u32(s, HEAD + BEFORE, head);
}
