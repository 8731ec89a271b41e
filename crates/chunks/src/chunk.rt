// The bytes of a chunk: the buffer, the redzone words R0 and R1, and the tag.
ghost use Rattle.std.specs.Prelude.{◌≡◌, true, ◌≤◌, length};
ghost use Rattle.chunks.specs.Chunk.{ChunkLength, lawful_size, buffer_size, filled_chunk, guarded_chunk, free_chunk, granted_chunk, tag_at};

use crate::header;
use runs::run;
use tags::format::Format;
use tags::size_code;
use tags::tag::{State, Tag};

pub const REDZONE: u32 = 0xfeedface;

pub const FREE_FILL: u32 = 0xdeadbeef;

pub const GRANT_FILL: u32 = 0xbaddcafe;

pub const GUARD: u8 = 0xbb;

// What a buffer is granted as, or asked for: whole, or so many bytes of it.
#[derive(Clone, Copy, Debug, PartialEq, Eq)]
pub enum Grant {
    Whole,
    Sized(u32),
}

// Writes a whole chunk: a fill word again and again, R0, R1 and a tag.
fn write(f: Format, chunk: &mut [u8], fill: u32, r1: u32, tag: Tag)
    requires { ChunkLength (length chunk.old) }
    ensures { chunk.new ≡ filled_chunk f (buffer_size chunk.old) fill r1 tag }
{
    let o = f.order;
    let size = chunk.len() - 16;
    run::fill(chunk, 0, size, o.bytes(fill));
    o.write_u32(chunk, size, REDZONE);
    o.write_u32(chunk, size + 4, r1);
    o.write_u32(chunk, size + 8, tag.t0);
    o.write_u32(chunk, size + 12, tag.t1);
}

// Writes the chunk of a free buffer whose record is at an address.
pub fn write_free(f: Format, chunk: &mut [u8], record_at: u32)
    requires { ChunkLength (length chunk.old) }
    ensures { chunk.new ≡ free_chunk f (buffer_size chunk.old) record_at }
{
    let tag = Tag::new(record_at, State::Free);
    write(f, chunk, FREE_FILL, REDZONE, tag);
}

// Writes a chunk granted with a coded size, but for its header: the size code, and the guard.
fn write_guarded(f: Format, chunk: &mut [u8], c: u32, tag: Tag)
    requires chunk_length { ChunkLength (length chunk.old) }
    requires c_bound { c ≤ buffer_size chunk.old }
    ensures { chunk.new ≡ guarded_chunk f (buffer_size chunk.old) c tag }
{
    write(f, chunk, GRANT_FILL, size_code::encode(c as u16), tag);
    chunk[c as usize] = GUARD;
}

// Writes the chunk of a granted buffer whose record is at an address.
pub fn write_granted(f: Format, chunk: &mut [u8], record_at: u32, grant: Grant)
    requires chunk_length { ChunkLength (length chunk.old) }
    requires grant_value { lawful_size f.profile (buffer_size chunk.old) grant ≡ true }
    ensures { chunk.new
        ≡ granted_chunk f (buffer_size chunk.old) record_at grant }
{
    let tag = Tag::new(record_at, State::Allocated);
    match grant {
        Grant::Whole => write(f, chunk, GRANT_FILL, REDZONE, tag),
        Grant::Sized(q) => {
            let c = header::coded(f.profile, q);
            write_guarded(f, chunk, c, tag);
            header::write(f, chunk, c);
        }
    }
}

// The tag of a chunk.
pub fn read_tag(f: Format, chunk: &[u8]) -> Tag
    requires { ChunkLength (length chunk.now) }
    ensures { result ≡ tag_at f chunk.now }
{
    let o = f.order;
    let size = chunk.len() - 16;
    Tag {
        t0: o.read_u32(chunk, size + 8),
        t1: o.read_u32(chunk, size + 12),
    }
}
