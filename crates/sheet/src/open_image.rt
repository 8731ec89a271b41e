// An image that is open, by its type: its sheet's numbers keep their limits, and its areas are as long as they say.
ghost use Rattle.std.specs.Prelude.{◌≡◌, true, length};
ghost use Rattle.geometry.specs.Limits.{lawful};
ghost use Rattle.geometry.specs.Sheet.{heap_length, records_length};

use geometry::sheet::Sheet;

#[derive(Clone, Copy)]
pub struct OpenImage<'a> {
    pub sheet: Sheet,
    pub heap: &'a [u8],
    pub records: &'a [u8],
    ghost law: { lawful sheet ≡ true },
    ghost heap_long: { length heap.now ≡ heap_length sheet },
    ghost records_long: { length records.now ≡ records_length sheet },
}
