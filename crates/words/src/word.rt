// Numbers of one, two, four and eight bytes in a slice. A read is one load and a write one store, with one swap where the order
// asks for it.
#![tactic(auto, using(crate::proofs::Std::conversions))]

ghost use Rattle.std.specs.Prelude.{◌≡◌, ◌+◌, ◌≤◌, length};
ghost use Rattle.std.proofs.lemmas.List.Edits.{sets};
ghost use Rattle.words.specs.Word.{number, number_at, bytes_of, order_if};
ghost use Rattle.words.specs.declared.word.Order.TheVariants.{HighFirst};

// Which byte of a number comes first.
#[derive(Clone, Copy, Debug, PartialEq, Eq)]
pub enum Order {
    HighFirst,
    LowFirst,
}

// True says that the lowest byte comes first.
impl From<bool> for Order {
    ghost from_gives = { λ low o. o ≡ order_if low };

    fn from(low: bool) -> Order {
        if low {
            Order::LowFirst
        } else {
            Order::HighFirst
        }
    }
}

impl Order {
    // The number of the four bytes from an offset on.
    pub fn read_u32(self, s: &[u8], at: usize) -> u32
        requires { at + 4 ≤ length s.now }
        ensures { result ≡ number_at self 4 s.now at }
    {
        let bytes = [s[at], s[at + 1], s[at + 2], s[at + 3]];
        match self {
            Order::HighFirst => u32::from_be_bytes(bytes),
            Order::LowFirst => u32::from_le_bytes(bytes),
        }
    }

    // The number of the eight bytes from an offset on.
    pub fn read_u64(self, s: &[u8], at: usize) -> u64
        requires { at + 8 ≤ length s.now }
        ensures { result ≡ number_at self 8 s.now at }
    {
        let bytes = [
            s[at],
            s[at + 1],
            s[at + 2],
            s[at + 3],
            s[at + 4],
            s[at + 5],
            s[at + 6],
            s[at + 7],
        ];
        match self {
            Order::HighFirst => u64::from_be_bytes(bytes),
            Order::LowFirst => u64::from_le_bytes(bytes),
        }
    }

    // The number in this order of the bytes of which another is the number with the highest first: for a word that was read by code
    // that knows no order.
    pub fn reordered(self, v: u32) -> u32
        ensures { result ≡ number self (bytes_of HighFirst 4 v) }
    {
        match self {
            Order::HighFirst => v,
            Order::LowFirst => v.swap_bytes(),
        }
    }

    // The four bytes of a number. The order chooses between two numbers, here and in `write_u64`, and not between two arrays, which the
    // compiler would put together again byte by byte.
    pub fn bytes(self, v: u32) -> [u8; 4]
        ensures { result ≡ bytes_of self 4 v }
    {
        self.reordered(v).to_be_bytes()
    }

    // Writes the four bytes of a number from an offset on.
    pub fn write_u32(self, s: &mut [u8], at: usize, v: u32)
        requires { at + 4 ≤ length s.old }
        ensures { s.new ≡ sets s.old at (bytes_of self 4 v) }
    {
        s[at..at + 4].copy_from_slice(&self.bytes(v));
    }

    // Writes the eight bytes of a number from an offset on.
    pub fn write_u64(self, s: &mut [u8], at: usize, v: u64)
        requires { at + 8 ≤ length s.old }
        ensures { s.new ≡ sets s.old at (bytes_of self 8 v) }
    {
        let low_first = match self {
            Order::HighFirst => v.swap_bytes(),
            Order::LowFirst => v,
        };
        s[at..at + 8].copy_from_slice(&low_first.to_le_bytes());
    }
}

// The byte at an offset.
pub fn read_u8(s: &[u8], at: usize) -> u8
    requires { at + 1 ≤ length s.now }
    ensures { result ≡ number_at HighFirst 1 s.now at }
{
    s[at]
}

// The number of the two bytes from an offset on, the highest first: only a sheet has numbers of two bytes, and always so.
pub fn read_u16(s: &[u8], at: usize) -> u16
    requires { at + 2 ≤ length s.now }
    ensures { result ≡ number_at HighFirst 2 s.now at }
{
    u16::from_be_bytes([s[at], s[at + 1]])
}

// Writes one byte at an offset.
pub fn write_u8(s: &mut [u8], at: usize, v: u8)
    requires { at + 1 ≤ length s.old }
    ensures { s.new ≡ sets s.old at (bytes_of HighFirst 1 v) }
{
    s[at] = v;
}

// Writes the two bytes of a number from an offset on, the highest first.
pub fn write_u16(s: &mut [u8], at: usize, v: u16)
    requires { at + 2 ≤ length s.old }
    ensures { s.new ≡ sets s.old at (bytes_of HighFirst 2 v) }
{
    s[at..at + 2].copy_from_slice(&v.to_be_bytes());
}
