// The calls of a traced image, each with its line.
use crate::{findings, lines};
use allocation::allocate;
use area::record::Stamp;
use chunks::chunk::Grant;
use client::show::Shown;
use client::{show, store};
use sheet::fields;
use sheet::lent::{HeapMut, Image, ImageMut};
use std::io;
use std::io::Write;
use tags::format::{Format, Profile};
use transactions::latest;
use transactions::latest::Transaction;

const CACHE: u32 = 0x70039928;

pub(crate) const HEAP: u32 = 0x70a9add8;

pub(crate) const RECORDS: u32 = 0x70ae31a0;

// An image of three buffers of 24 bytes in a format. The records' length is told by the format's profile.
#[derive(Drop)]
pub(crate) struct TracedImage<'a> {
    pub(crate) format: Format,
    pub(crate) sheet: [u8; fields::LENGTH],
    pub(crate) heap: [u8; 3 * 40],
    pub(crate) records: &'a mut [u8],
}

impl<'a> TracedImage<'a> {
    // The areas, to be read.
    fn view<'b>(&'b self) -> Image<'b, 'b, 'b> {
        Image {
            sheet: &self.sheet,
            heap: &self.heap,
            records: self.records,
        }
    }

    // The areas, to be written.
    fn lend<'b>(&'b mut self) -> ImageMut<'b> {
        let TracedImage {
            sheet,
            heap,
            records,
            ..
        } = self;
        ImageMut {
            sheet,
            heap,
            records,
        }
    }

    // The heap to be written, the others to be read.
    fn lend_heap<'b>(&'b mut self) -> HeapMut<'b> {
        let TracedImage {
            sheet,
            heap,
            records,
            ..
        } = self;
        HeapMut {
            sheet,
            heap,
            records,
        }
    }
}

// What the client of a buffer sees: a part that keeps the heap alone lent, and neither the sheet nor the records.
fn shown<'h>(
    profile: Profile,
    sheet: &[u8],
    heap: &'h [u8],
    records: &[u8],
    address: u32,
) -> &'h [u8] {
    let image = Image {
        sheet,
        heap,
        records,
    };
    show::show(profile, &image, address)
}

// The latest transaction: a part that keeps the records and the log lent, and neither the sheet nor the heap.
fn latest_part<'a>(
    profile: Profile,
    sheet: &[u8],
    heap: &[u8],
    records: &'a [u8],
    log: &'a [u8],
    index: u32,
    time: u32,
) -> &'a [u8] {
    let image = Image {
        sheet,
        heap,
        records,
    };
    latest::latest(profile, &image, log, index, time)
}

// A log of three rows.
pub(crate) type Log = [u8; 3 * history::ROW];

// The calls made on an image and its log, and the output that gets their lines.
#[derive(Drop)]
pub(crate) struct Trace<'a, W> {
    pub(crate) output: &'a mut W,
    pub(crate) image: TracedImage<'a>,
    pub(crate) log: Log,
}

impl<'a, W: Write> Trace<'a, W> {
    // Lays the image out.
    pub(crate) fn lay_out(&mut self) -> io::Result<()> {
        let f = self.image.format;
        let answer = layout::lay_out(f, CACHE, HEAP, RECORDS, 24, 3, &mut self.image.lend());
        lines::put_answer(self.output, "lay_out", answer.map(|_| "done"))
    }

    // Allocates.
    pub(crate) fn allocate(&mut self, grant: Grant, uptime: u32, thread: u32) -> io::Result<()> {
        let profile = self.image.format.profile;
        let stamp = Stamp { uptime, thread };
        let answer = allocate::allocate(profile, &mut self.image.lend(), grant, stamp);
        lines::put_answer(self.output, "allocate", answer)
    }

    // Frees.
    pub(crate) fn free(
        &mut self,
        address: u32,
        grant: Grant,
        uptime: u32,
        thread: u32,
    ) -> io::Result<()> {
        let profile = self.image.format.profile;
        let stamp = Stamp { uptime, thread };
        let answer = free::free(profile, &mut self.image.lend(), address, grant, stamp);
        lines::put_answer(self.output, "free", answer.map(|_| "done"))
    }

    // Stores.
    pub(crate) fn store(&mut self, address: u32, offset: u32, bytes: &[u8]) -> io::Result<()> {
        let profile = self.image.format.profile;
        let answer = store::store(profile, &mut self.image.lend_heap(), address, offset, bytes);
        lines::put_answer(self.output, "store", answer.map(|_| "done"))
    }

    // Shows: where the client's bytes are, and the bytes.
    pub(crate) fn show(&mut self, address: u32) -> io::Result<()> {
        let profile = self.image.format.profile;
        let image = self.image.view();
        match show::find_client(profile, &image, address) {
            Ok(Shown { buffer, start, len }) => {
                writeln!(self.output, "find_client {buffer} {start} {len}")?
            }
            Err(why) => lines::put_refusal(self.output, "find_client", why)?,
        }
        let part = shown(profile, image.sheet, image.heap, image.records, address);
        lines::put_part(self.output, "show", part)
    }

    // Where the latest transaction of a buffer stands, and its bytes.
    pub(crate) fn latest(&mut self, index: u32, time: u32) -> io::Result<()> {
        let profile = self.image.format.profile;
        let image = self.image.view();
        match latest::find_latest(profile, &image, &self.log, index, time) {
            Ok(Transaction::Row(k)) => writeln!(self.output, "find_latest row {k}")?,
            Ok(Transaction::Record(j)) => writeln!(self.output, "find_latest record {j}")?,
            Err(why) => lines::put_refusal(self.output, "find_latest", why)?,
        }
        let part = latest_part(
            profile,
            image.sheet,
            image.heap,
            image.records,
            &self.log,
            index,
            time,
        );
        lines::put_part(self.output, "latest", part)
    }

    // Inspects with a magazine list, and tells what the call answered and each row of its findings.
    pub(crate) fn inspect(&mut self, magazines: &[u32]) -> io::Result<()> {
        let profile = self.image.format.profile;
        let image = self.image.view();
        let first = findings::look(profile, &image, magazines, 0);
        lines::put_answer(self.output, "inspect", first.answer)?;
        for k in 0..4 {
            let found = findings::look(profile, &image, magazines, k).finding;
            let v = found.verdict;
            writeln!(
                self.output,
                "finding {} {} {}",
                found.index,
                v.number(),
                v.value()
            )?;
        }
        Ok(())
    }

    // Reads a byte of the heap through its window.
    pub(crate) fn read_byte(&mut self, address: u32) -> io::Result<()> {
        let found = window::read_byte(&self.image.heap, HEAP, address);
        lines::put_found(self.output, "byte", found)
    }

    // Reads a word of the heap, and one of the records, through their windows.
    pub(crate) fn read_heap(&mut self, address: u32) -> io::Result<()> {
        let found = window::read_word(&self.image.heap, HEAP, address);
        self.put_word(found)
    }

    pub(crate) fn read_records(&mut self, address: u32) -> io::Result<()> {
        let found = window::read_word(self.image.records, RECORDS, address);
        self.put_word(found)
    }

    // The line of a word that was read with the highest byte first: it is told in the order of the image.
    fn put_word(&mut self, found: Option<u32>) -> io::Result<()> {
        let order = self.image.format.order;
        lines::put_found(self.output, "word", found.map(|n| order.reordered(n)))
    }
}
