// Show: the client's own bytes, as a part of the heap.
ghost use Rattle.std.specs.Prelude.{◌≡◌, ◌<◌};
ghost use Rattle.geometry.specs.Limits.{Lawful};
ghost use Rattle.sheet.specs.Lent.{seen};
ghost use Rattle.places.specs.Spot.{chunk_start};
ghost use Rattle.client.specs.Bounds.{client_start, client_size};
ghost use Rattle.client.specs.Show.{shown, shown_of, shown_part, ShownPlace};

use chunks::chunk::Grant;
use chunks::header;
use held::Holding;
use sheet::lent::Image;
use sheet::opening;
use tags::format::Profile;
use tags::refusal::Refusal;

// Where the buffer stands in the heap, where in it the client's bytes start, and how many they are.
#[derive(Clone, Copy, Debug, PartialEq, Eq)]
pub struct Shown {
    pub buffer: usize,
    pub start: usize,
    pub len: usize,
}

impl Shown {
    // The client's bytes of a buffer that is held: behind the header of a sized grant, and all of the buffer of a whole one.
    pub(crate) fn of(held: Holding) -> Shown
        requires lawful { Lawful held.spot.sheet }
        requires buffer_lt_count { held.spot.buffer < held.spot.sheet.count }
        ensures { result ≡ shown (chunk_start held.spot) (client_start held) (client_size held) }
    {
        let spot = held.spot;
        let sheet = spot.sheet;
        let (start, len) = match held.grant {
            Grant::Whole => (0, sheet.size),
            Grant::Sized(len) => (header::size(sheet.format.profile), len as usize),
        };
        Shown {
            buffer: sheet.chunk_place(spot.buffer),
            start,
            len,
        }
    }
}

// Finds the client's bytes of the buffer at an address.
#[tactic(auto, unfolding(crate::specs::Show::shown_of))]
pub fn find_client(profile: Profile, image: &Image, address: u32) -> Result<Shown, Refusal>
    ensures { result ≡ shown_of profile (seen image.now) address }
{
    // No `?` here: it copies the image that was opened, which takes 4 ns and more of each call (measured).
    let image = match opening::open_image(profile, image) {
        Ok(image) => image,
        Err(why) => return Err(why),
    };
    let held = held::hold(&image, address)?;
    Ok(Shown::of(held))
}

// The client's bytes themselves; empty where they are refused.
pub fn show<'s, 'a, 'r>(profile: Profile, image: &Image<'s, 'a, 'r>, address: u32) -> &'a [u8]
    ensures bytes { result.now ≡ shown_part image.now.heap.now (shown_of profile (seen image.now) address) }
    ensures place { ShownPlace image.now.heap (shown_of profile (seen image.now) address) result }
{
    let Ok(client) = find_client(profile, image, address) else {
        return &[];
    };
    let at = client.buffer + client.start;
    &image.heap[at..at + client.len]
}
