// The three areas of an image as they are lent: to be read, to be written, or the heap alone to be written.
ghost use Rattle.std.specs.Prelude.{◌≡◌};
ghost use Rattle.sheet.specs.Lent.{seen, lent, lent_heap};

// To be read. Each area is lent for a time of its own, so that a part of one does not keep the others lent.
#[derive(Clone, Copy)]
pub struct Image<'s, 'h, 'r> {
    pub sheet: &'s [u8],
    pub heap: &'h [u8],
    pub records: &'r [u8],
}

// To be written.
#[derive(Drop)]
pub struct ImageMut<'a> {
    pub sheet: &'a mut [u8],
    pub heap: &'a mut [u8],
    pub records: &'a mut [u8],
}

// The heap to be written, the others to be read.
#[derive(Drop)]
pub struct HeapMut<'a> {
    pub sheet: &'a [u8],
    pub heap: &'a mut [u8],
    pub records: &'a [u8],
}

impl<'a> ImageMut<'a> {
    // The same areas, to be read.
    pub fn view<'b>(&'b self) -> Image<'b, 'b, 'b>
        ensures { seen result ≡ lent self.now }
    {
        Image {
            sheet: self.sheet,
            heap: self.heap,
            records: self.records,
        }
    }
}

impl<'a> HeapMut<'a> {
    // The same areas, to be read.
    pub fn view<'b>(&'b self) -> Image<'b, 'b, 'b>
        ensures { seen result ≡ lent_heap self.now }
    {
        Image {
            sheet: self.sheet,
            heap: self.heap,
            records: self.records,
        }
    }
}
