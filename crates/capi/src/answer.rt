// The one number that every function returns.
ghost use Rattle.std.specs.Prelude.{◌≡◌, ◌<◌};
ghost use Rattle.capi.specs.Answer.{accepted_word, shown_word, refused_word, answer_word};

use tags::refusal::Refusal;

// What an accepted call returns.
pub(crate) fn accepted(value: u32) -> u64
    ensures { result ≡ accepted_word value }
{
    (value as u64) * 4294967296
}

// What an accepted show returns: where in the buffer the client's bytes start, and how many they are.
pub(crate) fn shown(start: u32, len: u32) -> u64
    requires { start < 65536 }
    ensures { result ≡ shown_word start len }
{
    accepted(len) + (start as u64) * 65536
}

// What a refused call returns.
#[tactic(auto, unfolding(crate::specs::Answer::refused_word))]
pub(crate) fn refused(why: Refusal) -> u64
    ensures { result ≡ refused_word why }
{
    let number = why.number();
    let detail = why.detail();
    (number as u64) + (detail as u64) * 256
}

// What a call returns.
pub(crate) fn word(a: Result<u32, Refusal>) -> u64
    ensures { result ≡ answer_word a }
{
    match a {
        Ok(value) => accepted(value),
        Err(why) => refused(why),
    }
}
