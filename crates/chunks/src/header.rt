// The header of a sized grant. The kernel's profile has none; in userland it is the first two words of the buffer: the coded size, and
// what is missing to a fixed sum. The coded size counts the header too.
ghost use Rattle.std.specs.Prelude.{◌≡◌, ◌-◌, ◌≤◌, ◌<◌, length};
ghost use Rattle.std.proofs.lemmas.List.Edits.{sets};
ghost use Rattle.chunks.specs.Header.{header_size, coded_size, request_most, header_sum, header_bytes, header_right};

use tags::format::{Format, Profile};

const SUM: u32 = 0x3a10c000;

// How long a header is.
pub fn size(p: Profile) -> usize
    ensures { result ≡ header_size p }
{
    match p {
        Profile::Kernel => 0,
        Profile::Userland => 8,
    }
}

// The coded size of a request.
pub(crate) fn coded(p: Profile, q: u32) -> u32
    requires { coded_size p q < 4294967296 }
    ensures { result ≡ coded_size p q }
{
    q + size(p) as u32
}

// The largest request of a buffer's size.
pub fn request_most(p: Profile, buffer: usize) -> usize
    ensures { result ≡ request_most p buffer }
{
    buffer.saturating_sub(size(p))
}

// Writes the header of a coded size to the start of a buffer.
pub(crate) fn write(f: Format, buffer: &mut [u8], c: u32)
    requires in_bounds { 8 ≤ length buffer.old }
    requires c_le_header_sum { c ≤ header_sum }
    ensures { buffer.new ≡ sets buffer.old 0 (header_bytes f c) }
{
    match f.profile {
        Profile::Kernel => {}
        Profile::Userland => {
            f.order.write_u32(buffer, 0, c);
            f.order.write_u32(buffer, 4, SUM - c);
        }
    }
}

// Whether a buffer starts with the header of a coded size, and that is one of a request.
#[tactic(auto, unfolding(crate::specs::Header::header_right))]
pub(crate) fn is_right(f: Format, buffer: &[u8], c: u32) -> bool
    requires { 8 ≤ length buffer.now }
    ensures { result ≡ header_right f buffer.now c }
{
    match f.profile {
        Profile::Kernel => true,
        Profile::Userland => {
            9 <= c
                && f.order.read_u32(buffer, 0) == c
                && f.order.read_u32(buffer, 4) == SUM.saturating_sub(c)
        }
    }
}
