// The whole text of an image, put line by line: some buffers are judged at a time, and then their lines are put.
ghost use Rattle.std.specs.Prelude.{◌≡◌, ℕ, ◌+◌, ◌*◌, ◌^◌, ◌≤◌, ◌<◌, length};
ghost use Rattle.tags.specs.Filling.{filling};
ghost use Rattle.chain.specs.Chain.{chain_of};
ghost use Rattle.verdicts.specs.Marked.{image_marked};
ghost use Rattle.lines.specs.Text.{Wrote, writing, faults_in, most_buffers, line_most};
ghost use Rattle.lines.specs.Writer.{Put, at_start};
ghost use Rattle.report.specs.Answer.{report_text};
ghost use Rattle.report.specs.Rows.{row_number, row_lines};

use lines::text;
use lines::text::Writer;
use verdicts::marked::MarkedImage;

// How many buffers are judged at a time: so many that what is worked out before the first of them takes little of the time.
const BATCH: usize = 16;

// Puts the lines of `count` buffers from one on, whose numbers stand in the rows.
fn put_rows(writer: &mut Writer, first: usize, count: usize, rows: &[u32])
    requires at_bound { writer.old.at < 2 ^ 60 }
    requires count_bound { first + count ≤ most_buffers }
    requires count_in_bounds { count * 3 ≤ length rows.now }
    requires by_index { (k : ℕ) → k < count → row_number rows.now k < 100 }
    ensures put { Put writer.old writer.new (row_lines rows.now first count) }
    ensures short { writer.new.at ≤ writer.old.at + count * line_most }
{
    for k in 0..count {
        let row = k * 3;
        writer.put_line(first + k, rows[row + 1], rows[row + 2]);
    }
}

// How many of the first `count` rows are those of a fault.
fn count_faults(rows: &[u32], count: usize) -> usize
    requires { count * 3 ≤ length rows.now }
    ensures are { result ≡ faults_in (row_number rows.now) count }
    ensures few { result ≤ count }
{
    let mut faults = 0;
    for k in 0..count {
        faults += text::fault(rows[k * 3 + 1]);
    }
    faults
}

// Puts the text of an image whose chain is walked, to the output's start.
fn put_text(image: &MarkedImage, met: usize, writer: &mut Writer)
    requires { met ≡ length (chain_of (image_marked image.now)).met }
    ensures { Put (at_start writer.old) writer.new (report_text (image_marked image.now)) }
{
    let n = image.image.sheet.count;
    let mut rows = [0u32; 3 * BATCH];
    let mut faults = 0;
    let mut i = 0;
    writer.put_header();
    while i < n {
        let count = BATCH.min(n - i);
        image.tell_buffers(i, count, &mut rows);
        put_rows(writer, i, count, &rows);
        faults += count_faults(&rows, count);
        i += count;
    }
    writer.put_chain(met, image.ending);
    writer.put_faults(faults);
}

// Puts it as far as the output goes, and answers how long it is.
fn put_report(image: &MarkedImage, met: usize, output: &mut [u8]) -> usize
    requires { met ≡ length (chain_of (image_marked image.now)).met }
    ensures { Wrote output.old 0 (report_text (image_marked image.now)) output.new result }
{
    let mut writer = Writer { output, at: 0 };
    put_text(image, met, &mut writer);
    writer.at
}

// Writes the text to the output's start and answers its length; or nothing, where the output is too short. Where the output has
// room for the longest text of so many buffers, each is judged once; else once to count, and once more to write.
pub(crate) fn write_report(image: &MarkedImage, met: usize, output: &mut [u8]) -> Option<usize>
    requires { met ≡ length (chain_of (image_marked image.now)).met }
    ensures { filling result output.new
        ≡ writing (report_text (image_marked image.now)) output.old }
{
    if text::longest(image.image.sheet.count) <= output.len() {
        return Some(put_report(image, met, output));
    }
    let need = put_report(image, met, &mut output[..0]);
    if output.len() < need {
        return None;
    }
    Some(put_report(image, met, output))
}
