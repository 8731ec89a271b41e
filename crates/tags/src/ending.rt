// How a chain ends, and the numbers that say so.
ghost use Rattle.std.specs.Prelude.{◌≡◌};
ghost use Rattle.tags.specs.Ending.{ending_number};

// How a chain ends: at 0, at a word that is no record's address, or at a record that it has met already.
#[derive(Clone, Copy, Debug, PartialEq, Eq)]
pub enum Ending {
    End,
    Broken,
    Again(usize),
}

impl Ending {
    // The number of a chain's ending.
    pub fn number(self) -> u32
        ensures { result ≡ ending_number self }
    {
        match self {
            Ending::End => 0,
            Ending::Broken => 1,
            Ending::Again(_) => 2,
        }
    }
}
