// The rules from 21 on: what a chunk, its tag, the chain and the list say of a buffer.
ghost use Rattle.std.specs.Prelude.{◌≡◌, ◌<◌, length};
ghost use Rattle.tags.specs.Tag.{pattern_of};
ghost use Rattle.tags.specs.Verdict.{told_of};
ghost use Rattle.tags.specs.declared.verdict.Verdict.{Verdict};
ghost use Rattle.chunks.specs.Chunk.{ChunkLength};
ghost use Rattle.geometry.specs.Sheet.{record_of};
ghost use Rattle.geometry.specs.Limits.{Lawful, count_most};
ghost use Rattle.verdicts.specs.Judge.{is_freed_twice, is_at_rest, rest_verdict, chained_verdict, again_at, again_index};

use chunks::judge;
use geometry::limits;
use geometry::sheet::Sheet;
use tags::ending::Ending;
use tags::format::Format;
use tags::tag::Tag;
use tags::verdict::{Told, Verdict};

// What the chain says of a buffer's own record, whether it is met and whether the chain is "again" at it; and how often the buffer is
// listed, 0, 1, or 2 for more.
#[derive(Clone, Copy, Debug, PartialEq, Eq)]
pub struct Standing {
    pub met: bool,
    pub again: bool,
    pub listed: u8,
}

impl Standing {
    // Whether the buffer was freed twice: it stands in two places, or in one place twice. As three tests with `||` it made the loop over
    // the buffers slower by up to 8 %.
    #[tactic(auto, unfolding(crate::specs::Judge::is_freed_twice))]
    fn is_freed_twice(self) -> bool
        ensures { result ≡ is_freed_twice self }
    {
        match (self.again, self.met) {
            (true, _) => true,
            (_, true) => self.listed != 0,
            _ => self.listed >= 2,
        }
    }

    // Whether the buffer stands where a free one does: on the chain or in the list.
    #[tactic(auto, unfolding(crate::specs::Judge::is_at_rest))]
    fn is_at_rest(self) -> bool
        ensures { result ≡ is_at_rest self }
    {
        self.met || self.listed != 0
    }
}

// The verdict on a buffer at rest, given the one on its chunk: a sound one that is listed is cached.
#[tactic(auto, unfolding(crate::specs::Judge::rest_verdict))]
fn judge_rest(listed: bool, told: Told) -> Told
    ensures { (v : Verdict) → told ≡ told_of v → result ≡ told_of (rest_verdict listed v) }
{
    if listed && told.number == 0 {
        return Told::from(Verdict::Cached);
    }
    told
}

// The rules from 22 on, and 21 for a tag of neither pattern. One match on the pattern, with the standing's tests as guards, made the
// loop over the buffers slower by up to 4 %.
#[tactic(auto, unfolding(crate::specs::Judge::chained_verdict, chunks::specs::Judge::allocated_verdict))]
pub(crate) fn judge_chained(f: Format, chunk: &[u8], tag: Tag, standing: Standing) -> Told
    requires { ChunkLength (length chunk.now) }
    ensures { result ≡ told_of (chained_verdict f chunk.now (pattern_of tag) standing) }
{
    if tag.is_free() {
        if standing.is_freed_twice() {
            return Told::from(Verdict::FreedTwice);
        }
        if !standing.is_at_rest() {
            return Told::from(Verdict::OffChain);
        }
        return judge_rest(standing.listed != 0, judge::judge_free(f, chunk));
    }
    if !tag.is_allocated() {
        return Told::from(Verdict::BadTag);
    }
    if standing.is_freed_twice() {
        return Told::from(Verdict::FreedTwice);
    }
    if standing.is_at_rest() {
        return Told::from(Verdict::OnChain);
    }
    judge::judge_header(f, chunk, judge::judge_coded(f, chunk))
}

// The record whose address T0 of buffer i is. Records mostly stand in the order of their buffers, so that record is tried first: then
// a comparison tells it, and no division.
pub(crate) fn find_named(g: Sheet, t0: u32, i: usize) -> Option<usize>
    requires lawful { Lawful g }
    requires i_lt_count { i < g.count }
    ensures { result ≡ record_of g t0 }
{
    if g.record_address(i) == t0 {
        return Some(i);
    }
    g.find_record(t0)
}

// The record that the chain is "again" at, else the index of none. It stays the same for all buffers of an image, so that one
// comparison is left for each.
fn again_index(ending: Ending) -> usize
    ensures { result ≡ again_index ending }
{
    match ending {
        Ending::Again(i) => i,
        Ending::End | Ending::Broken => limits::MOST_BUFFERS,
    }
}

// Whether the chain is "again" at record j.
pub(crate) fn again_at(ending: Ending, j: usize) -> bool
    requires { j < count_most }
    ensures { result ≡ again_at ending j }
{
    again_index(ending) == j
}
