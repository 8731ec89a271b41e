// What is found of a buffer.
ghost use Rattle.std.specs.Prelude.{◌≡◌};
ghost use Rattle.tags.specs.Verdict.{code_number, verdict_number, verdict_value, told_of, of_told};

use crate::size_code::BadCode;

// The rules' verdicts, in the order of their numbers; a bad size code has one of three, by how it is bad. A size is that of the
// grant; an offset is that of the first byte that differs, from the buffer's start.
#[derive(Clone, Copy, Debug, PartialEq, Eq)]
pub enum Verdict {
    Free,
    Whole,
    Allocated(u32),
    Cached,
    NotOneRecord,
    BadTag,
    FreedTwice,
    OffChain,
    OnChain,
    BadFill(u32),
    BadRedzone(u32),
    BadSizeCode(BadCode),
    Overrun(u32),
    BadHeader,
}

// A verdict as numbers: its own, and its size or offset, 0 where it carries none.
#[derive(Clone, Copy, Debug, PartialEq, Eq)]
pub struct Told {
    pub number: u32,
    pub value: u32,
}

impl BadCode {
    // The number of the verdict on a bad size code.
    fn number(self) -> u32
        ensures { result ≡ code_number self }
    {
        match self {
            BadCode::Remainder => 27,
            BadCode::Zero => 31,
            BadCode::Above => 32,
        }
    }
}

impl Verdict {
    // The number of a verdict.
    pub fn number(self) -> u32
        ensures { result ≡ verdict_number self }
    {
        match self {
            Verdict::Free => 0,
            Verdict::Whole => 1,
            Verdict::Allocated(_) => 2,
            Verdict::Cached => 3,
            Verdict::NotOneRecord => 20,
            Verdict::BadTag => 21,
            Verdict::FreedTwice => 22,
            Verdict::OffChain => 23,
            Verdict::OnChain => 24,
            Verdict::BadFill(_) => 25,
            Verdict::BadRedzone(_) => 26,
            Verdict::BadSizeCode(how) => how.number(),
            Verdict::Overrun(_) => 28,
            Verdict::BadHeader => 30,
        }
    }

    // The size or the offset that a verdict carries, 0 for one that carries none.
    pub fn value(self) -> u32
        ensures { result ≡ verdict_value self }
    {
        match self {
            Verdict::Allocated(size) => size,
            Verdict::BadFill(offset) | Verdict::BadRedzone(offset) | Verdict::Overrun(offset) =>
                offset,
            _ => 0,
        }
    }
}

// A verdict as numbers.
impl From<Verdict> for Told {
    ghost from_gives = { λ v t. t ≡ told_of v };

    fn from(v: Verdict) -> Told {
        Told {
            number: v.number(),
            value: v.value(),
        }
    }
}

// The verdict that numbers tell.
impl From<Told> for Verdict {
    ghost from_gives = { λ t v. v ≡ of_told t };

    #[tactic(auto, unfolding(crate::specs::Verdict::of_told))]
    fn from(t: Told) -> Verdict {
        match t.number {
            0 => Verdict::Free,
            1 => Verdict::Whole,
            2 => Verdict::Allocated(t.value),
            3 => Verdict::Cached,
            20 => Verdict::NotOneRecord,
            21 => Verdict::BadTag,
            22 => Verdict::FreedTwice,
            23 => Verdict::OffChain,
            24 => Verdict::OnChain,
            25 => Verdict::BadFill(t.value),
            26 => Verdict::BadRedzone(t.value),
            27 => Verdict::BadSizeCode(BadCode::Remainder),
            28 => Verdict::Overrun(t.value),
            31 => Verdict::BadSizeCode(BadCode::Zero),
            32 => Verdict::BadSizeCode(BadCode::Above),
            _ => Verdict::BadHeader,
        }
    }
}
