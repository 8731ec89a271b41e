// How an image writes its words and its grants: by which rules it was made, and in which order the bytes of a word stand. It goes by
// value to whatever reads or writes a chunk, a record or a row of the log; a sheet holds that of its image.
ghost use Rattle.std.specs.Prelude.{◌≡◌};
ghost use Rattle.tags.specs.Format.{profile_if, format_if, is_low};

use words::word::Order;

// Whose rules an image keeps: those of the kernel's allocator, or those of the one in userland. An image does not say it.
#[derive(Clone, Copy, Debug, PartialEq, Eq)]
pub enum Profile {
    Kernel,
    Userland,
}

#[derive(Clone, Copy, Debug, PartialEq, Eq)]
pub struct Format {
    pub profile: Profile,
    pub order: Order,
}

// The profile that a truth value stands for: whether it is userland's.
impl From<bool> for Profile {
    ghost from_gives = { λ userland p. p ≡ profile_if userland };

    fn from(userland: bool) -> Profile {
        if userland {
            return Profile::Userland;
        }
        Profile::Kernel
    }
}

impl Format {
    // The format that two truth values stand for.
    pub fn of(userland: bool, low: bool) -> Format
        ensures { result ≡ format_if userland low }
    {
        Format {
            profile: Profile::from(userland),
            order: Order::from(low),
        }
    }

    // Whether the low byte comes first.
    pub fn is_low(self) -> bool
        ensures { result ≡ is_low self }
    {
        matches!(self.order, Order::LowFirst)
    }
}
