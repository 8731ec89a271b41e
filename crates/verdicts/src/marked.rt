// An image that is open and marked, by its type: the marks and the chain's ending are its own. Of the magazine list the marks tell all
// that is asked; it is kept so that a contract can name the image.
ghost use Rattle.std.specs.Prelude.{◌≡◌, ◌+◌, ◌≤◌, ◌<◌, length};
ghost use Rattle.std.proofs.lemmas.List.Edits.{sets};
ghost use Rattle.chain.specs.Chain.{chain_in};
ghost use Rattle.chain.specs.Marks.{marks_in};
ghost use Rattle.verdicts.specs.Judge.{row_of};

use crate::judge;
use crate::judge::Standing;
use chain::marks::Digits;
use chunks::chunk;
use places::{heap, records};
use sheet::open_image::OpenImage;
use tags::ending::Ending;
use tags::verdict::{Told, Verdict};

#[derive(Clone, Copy)]
pub struct MarkedImage<'a> {
    pub image: OpenImage<'a>,
    pub magazines: &'a [u32],
    pub marks: &'a [u8],
    pub ending: Ending,
    ghost marked: { marks.now ≡ marks_in image.sheet image.records.now magazines.now },
    ghost ends: { ending ≡ (chain_in image.sheet image.records.now).ending },
}

// Writes the numbers of buffer i at a place of the rows: its index, and its verdict's number and value. They are stored one by one:
// `copy_from_slice` puts them into memory first and reads them from there, which was slower by 5 ns a buffer.
fn put_row(rows: &mut [u32], at: usize, i: usize, told: Told)
    requires i_bound { i < 4294967296 }
    requires at_in_bounds { at + 3 ≤ length rows.old }
    ensures { rows.new ≡ sets rows.old at (row_of i told) }
{
    rows[at] = i as u32;
    rows[at + 1] = told.number;
    rows[at + 2] = told.value;
}

impl<'a> MarkedImage<'a> {
    ghost use Rattle.std.specs.Prelude.{◌*◌};
    ghost use Rattle.tags.specs.Verdict.{told_of};
    ghost use Rattle.verdicts.specs.Judge.{verdict_of, rows_of};
    ghost use Rattle.verdicts.specs.Marked.{image_marked};

    // The verdict on buffer i. Where one record alone names the buffer, T0 is its own record's address exactly when it is the address of
    // a record that names the buffer.
    pub fn judge_buffer(&self, i: usize) -> Told
        requires { i < self.now.image.sheet.count }
        ensures { result ≡ told_of (verdict_of (image_marked self.now) i) }
    {
        let g = self.image.sheet;
        let digits = Digits::from(self.marks[i]);
        if digits.names != 1 {
            return Told::from(Verdict::NotOneRecord);
        }
        let chunk = heap::chunk(self.image.heap, g, i);
        let tag = chunk::read_tag(g.format, chunk);
        let Some(j) = judge::find_named(g, tag.t0, i) else {
            return Told::from(Verdict::BadTag);
        };
        if records::buffer(self.image.records, g, j) != g.buffer_address(i) {
            return Told::from(Verdict::BadTag);
        }
        let standing = Standing {
            met: Digits::from(self.marks[j]).met,
            again: judge::again_at(self.ending, j),
            listed: digits.listed,
        };
        judge::judge_chained(g.format, chunk, tag, standing)
    }

    // The verdicts on `count` buffers from one on, as numbers into a lent row, three for each: a buffer's index, and its verdict's number
    // and value. The judging is compiled into the loop, and what does not change from buffer to buffer is worked out once: so whoever
    // wants many verdicts as numbers asks for many at a time.
    pub fn tell_buffers(&self, from: usize, count: usize, rows: &mut [u32])
        requires count_bound { from + count ≤ self.now.image.sheet.count }
        requires count_in_bounds { count * 3 ≤ length rows.old }
        ensures { rows.new ≡ sets rows.old 0 (rows_of (image_marked self.now) from count) }
    {
        // A copy, since of what stands behind a reference the compiler does not know that the rows are no part of it: it would be read
        // again for each buffer.
        let image = *self;
        for k in 0..count {
            let i = from + k;
            let told = image.judge_buffer(i);
            put_row(rows, k * 3, i, told);
        }
    }
}
