// Why a call is refused, and the numbers that say so.
ghost use Rattle.std.specs.Prelude.{◌≡◌};
ghost use Rattle.tags.specs.Refusal.{refusal_number, refusal_detail};

use crate::verdict::Verdict;

// The rules' refusals, in the order of their numbers. A broken head is damage of its own kind.
#[derive(Clone, Copy, Debug, PartialEq, Eq)]
pub enum Refusal {
    BadSheet,
    BadNumber,
    BadLength,
    NoSuchBuffer,
    NoRoom,
    BadSize,
    Damage(Verdict),
    BrokenHead,
    NotAllocated,
    OtherGrant,
    PastClient,
    ShortOutput,
    WideStamp,
    NoThread,
}

impl Refusal {
    // The number of a refusal.
    pub fn number(self) -> u32
        ensures { result ≡ refusal_number self }
    {
        match self {
            Refusal::BadSheet => 1,
            Refusal::BadNumber => 2,
            Refusal::BadLength => 3,
            Refusal::NoSuchBuffer => 4,
            Refusal::NoRoom => 5,
            Refusal::BadSize => 6,
            Refusal::Damage(_) => 7,
            Refusal::BrokenHead => 7,
            Refusal::NotAllocated => 8,
            Refusal::OtherGrant => 9,
            Refusal::PastClient => 10,
            Refusal::ShortOutput => 11,
            Refusal::WideStamp => 12,
            Refusal::NoThread => 13,
        }
    }

    // The detail of a refusal: of 7 the verdict's number, or 29 for a broken head; else 0.
    pub fn detail(self) -> u32
        ensures { result ≡ refusal_detail self }
    {
        match self {
            Refusal::Damage(v) => v.number(),
            Refusal::BrokenHead => 29,
            _ => 0,
        }
    }
}
