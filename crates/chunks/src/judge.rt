// The verdict on one chunk, by the rules of its pattern. A verdict is carried as its two numbers: an enum that passes through
// several functions would be packed into one number and taken apart again for each buffer.
ghost use Rattle.std.specs.Prelude.{◌≡◌, ◌≤◌, length};
ghost use Rattle.tags.specs.Verdict.{told_of};
ghost use Rattle.tags.specs.declared.verdict.Verdict.{Verdict};
ghost use Rattle.chunks.specs.Chunk.{ChunkLength, buffer_size};
ghost use Rattle.chunks.specs.Judge.{zone_verdict, zone_after, sized_verdict, free_verdict, coded_verdict, headed_verdict};

use crate::{chunk, header};
use runs::run;
use tags::format::Format;
use tags::size_code;
use tags::verdict::{Told, Verdict};

// The verdict on a chunk of the free pattern.
#[tactic(auto, unfolding(crate::specs::Judge::free_verdict))]
pub fn judge_free(f: Format, chunk: &[u8]) -> Told
    requires { ChunkLength (length chunk.now) }
    ensures { result ≡ told_of (free_verdict f chunk.now) }
{
    let o = f.order;
    let size = chunk.len() - 16;
    if let Some(at) = run::difference_by_eights(chunk, 0, size, o.bytes(chunk::FREE_FILL)) {
        return Told::from(Verdict::BadFill(at as u32));
    }
    if let Some(at) = run::two_words_difference(chunk, size, o.bytes(chunk::REDZONE)) {
        return Told::from(Verdict::BadRedzone((size + at) as u32));
    }
    Told::from(Verdict::Free)
}

// The verdict on R0, whose bytes should be `zone`; `sound` where they are.
#[tactic(auto, unfolding(crate::specs::Judge::zone_verdict))]
fn judge_zone(chunk: &[u8], zone: [u8; 4], sound: Told) -> Told
    requires { ChunkLength (length chunk.now) }
    ensures { (v : Verdict) → sound ≡ told_of v
        → result ≡ told_of (zone_verdict chunk.now zone v) }
{
    let size = chunk.len() - 16;
    match run::word_difference(chunk, size, zone) {
        Some(at) => Told::from(Verdict::Overrun((size + at) as u32)),
        None => sound,
    }
}

// R0 after a grant of the coded size s: the guard is its first byte where s is the buffer's size.
fn zone_after(f: Format, s: usize, size: usize) -> [u8; 4]
    ensures { result ≡ zone_after f s size }
{
    let mut zone = f.order.bytes(chunk::REDZONE);
    if s == size {
        zone[0] = chunk::GUARD;
    }
    zone
}

// The verdict on a chunk of the allocated pattern whose R1 is the code of s.
#[tactic(auto, unfolding(crate::specs::Judge::sized_verdict))]
fn judge_sized(f: Format, chunk: &[u8], s: u32) -> Told
    requires chunk_length { ChunkLength (length chunk.now) }
    requires s_bound { s ≤ buffer_size chunk.now }
    ensures { result ≡ told_of (sized_verdict f chunk.now s) }
{
    let i = s as usize;
    if chunk[i] != chunk::GUARD {
        return Told::from(Verdict::Overrun(s));
    }
    let zone = zone_after(f, i, chunk.len() - 16);
    judge_zone(chunk, zone, Told::from(Verdict::Allocated(s)))
}

// The verdict on a chunk of the allocated pattern by all but its header: with the coded size, where it is sound.
#[tactic(auto, unfolding(crate::specs::Judge::coded_verdict))]
pub fn judge_coded(f: Format, chunk: &[u8]) -> Told
    requires { ChunkLength (length chunk.now) }
    ensures { result ≡ told_of (coded_verdict f chunk.now) }
{
    let o = f.order;
    let size = chunk.len() - 16;
    let r1 = o.read_u32(chunk, size + 4);
    if r1 == chunk::REDZONE {
        return judge_zone(chunk, o.bytes(chunk::REDZONE), Told::from(Verdict::Whole));
    }
    match size_code::decode(r1, size as u32) {
        Ok(s) => judge_sized(f, chunk, s),
        Err(how) => Told::from(Verdict::BadSizeCode(how)),
    }
}

// The verdict on a chunk of the allocated pattern, given the one by all but its header. Two functions, one called after the other: each
// is small enough to be compiled into its caller.
#[tactic(auto, unfolding(crate::specs::Judge::headed_verdict, crate::specs::Judge::header_verdict))]
pub fn judge_header(f: Format, chunk: &[u8], t: Told) -> Told
    requires { ChunkLength (length chunk.now) }
    ensures { (v : Verdict) → t ≡ told_of v
        → result ≡ told_of (headed_verdict f chunk.now v) }
{
    if t.number != 2 {
        return t;
    }
    let c = t.value;
    if header::is_right(f, chunk, c) {
        return Told::from(Verdict::Allocated(c - header::size(f.profile) as u32));
    }
    Told::from(Verdict::BadHeader)
}
