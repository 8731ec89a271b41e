// The last two words of a chunk: T0, the record's address, and T1, such that T0 xor T1 is one of two patterns.
ghost use Rattle.std.specs.Prelude.{◌≡◌};
ghost use Rattle.tags.specs.Tag.{tag_of, pattern_of, is_free, is_allocated};

// What a tag is made for.
#[derive(Clone, Copy, Debug, PartialEq, Eq)]
pub enum State {
    Free,
    Allocated,
}

// What a tag that was read says.
#[derive(Clone, Copy, Debug, PartialEq, Eq)]
pub enum Pattern {
    Free,
    Allocated,
    Neither,
}

#[derive(Clone, Copy, Debug, PartialEq, Eq)]
pub struct Tag {
    pub t0: u32,
    pub t1: u32,
}

impl Tag {
    pub const ALLOCATED: u32 = 0xa110c8ed;

    pub const FREE: u32 = 0xf4eef4ee;

    // The tag of a buffer in a state whose record is at an address.
    #[tactic(auto, unfolding(crate::specs::Tag::tag_of))]
    pub fn new(record_at: u32, state: State) -> Tag
        ensures { result ≡ tag_of record_at state }
    {
        let pattern = match state {
            State::Free => Tag::FREE,
            State::Allocated => Tag::ALLOCATED,
        };
        Tag {
            t0: record_at,
            t1: record_at ^ pattern,
        }
    }

    // Which pattern T0 xor T1 is.
    #[tactic(auto, unfolding(crate::specs::Tag::pattern_of, crate::specs::Tag::pattern_word))]
    pub fn pattern(self) -> Pattern
        ensures { result ≡ pattern_of self }
    {
        let x = self.t0 ^ self.t1;
        if x == Tag::FREE {
            return Pattern::Free;
        }
        if x == Tag::ALLOCATED {
            return Pattern::Allocated;
        }
        Pattern::Neither
    }

    // Whether the pattern is the free one.
    #[tactic(auto, unfolding(crate::specs::Tag::pattern_of, crate::specs::Tag::pattern_word))]
    pub fn is_free(self) -> bool
        ensures { result ≡ is_free (pattern_of self) }
    {
        self.t0 ^ self.t1 == Tag::FREE
    }

    // Whether the pattern is the allocated one.
    #[tactic(auto, unfolding(crate::specs::Tag::pattern_of, crate::specs::Tag::pattern_word))]
    pub fn is_allocated(self) -> bool
        ensures { result ≡ is_allocated (pattern_of self) }
    {
        self.t0 ^ self.t1 == Tag::ALLOCATED
    }
}
