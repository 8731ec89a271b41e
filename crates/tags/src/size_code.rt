// The size of a grant of s bytes, coded in R1.
ghost use Rattle.std.specs.Prelude.{◌≡◌};
ghost use Rattle.tags.specs.SizeCode.{code_of, decoded_of};

// How a word is no size code, in the order in which that is tested: its remainder is wrong; with a right one its size is zero, or
// above the buffer's.
#[derive(Clone, Copy, Debug, PartialEq, Eq)]
pub enum BadCode {
    Remainder,
    Zero,
    Above,
}

// The code of a size. No size of two bytes is too large for it.
pub fn encode(size: u16) -> u32
    ensures { result ≡ code_of size }
{
    251 * (size as u32) + 1
}

// The size that a code stands for in a buffer of `most` bytes, or how it is bad. The remainder is tested: a division alone would take
// a damaged code for a size.
#[tactic(auto, unfolding(crate::specs::SizeCode::decoded_of))]
pub fn decode(code: u32, most: u32) -> Result<u32, BadCode>
    ensures { result ≡ decoded_of code most }
{
    if code % 251 != 1 {
        return Err(BadCode::Remainder);
    }
    let size = code / 251;
    if size == 0 {
        return Err(BadCode::Zero);
    }
    if most < size {
        return Err(BadCode::Above);
    }
    Ok(size)
}
