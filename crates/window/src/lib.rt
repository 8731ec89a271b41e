// An address window (A6): a base address and the lent bytes that stand from there on; a word partly outside is no word. A caller
// that holds the bytes and the base by themselves asks `read_word` or `read_byte`. A word is read with the highest byte first: a
// window knows no image, and who asks turns the word into the order of its image.
#![tactic(auto)]

ghost use Rattle.std.specs.Prelude.{◌≡◌};
ghost use Rattle.window.specs.Window.{word_in, byte_in};

use words::word::Order;

#[derive(Clone, Copy, Debug, PartialEq, Eq)]
pub struct Window<'a> {
    pub base: u32,
    pub bytes: &'a [u8],
}

impl<'a> Window<'a> {
    // The window over bytes that stand from `base` on.
    pub fn new(base: u32, bytes: &'a [u8]) -> Window<'a>
        ensures { (result.base ≡ base) × (result.bytes ≡ bytes.entry) }
    {
        Window { base, bytes }
    }

    // The word at an address of a window.
    #[tactic(auto, using(crate::proofs::Windows::readings))]
    pub fn word_at(self, address: u32) -> Option<u32>
        ensures { result ≡ word_in self.entry.bytes.now self.entry.base address }
    {
        let at = address.checked_sub(self.base)? as usize;
        let four = self.bytes.get(at..at + 4)?;
        Some(Order::HighFirst.read_u32(four, 0))
    }

    // The byte at an address of a window.
    #[tactic(auto, using(crate::proofs::Windows::readings))]
    pub fn byte_at(self, address: u32) -> Option<u32>
        ensures { result ≡ byte_in self.entry.bytes.now self.entry.base address }
    {
        let at = address.checked_sub(self.base)? as usize;
        let b = *self.bytes.get(at)?;
        Some(u32::from(b))
    }
}

// The word at an address of an area that stands from `base` on, read through its window: for callers that hold no window.
pub fn read_word(area: &[u8], base: u32, address: u32) -> Option<u32>
    ensures { result ≡ word_in area.now base address }
{
    Window::new(base, area).word_at(address)
}

// The byte at an address of such an area, read the same way.
pub fn read_byte(area: &[u8], base: u32, address: u32) -> Option<u32>
    ensures { result ≡ byte_in area.now base address }
{
    Window::new(base, area).byte_at(address)
}
