// The age of a stamp. Uptime is a count of milliseconds in a word and wraps after 49.7 days, so two stamps are never
// compared: their ages are.
ghost use Rattle.std.specs.Prelude.{◌≡◌};
ghost use Rattle.words.specs.Age.{age_of};

// The age of a stamp at a time.
#[tactic(auto, unfolding(crate::specs::Age::age_of))]
pub fn age(time: u32, stamp: u32) -> u32
    ensures { result ≡ age_of 32 time stamp }
{
    time.wrapping_sub(stamp)
}
