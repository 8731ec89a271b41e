// What is read off an image.
ghost use Rattle.std.specs.Prelude.{◌≡◌, length};
ghost use Rattle.tags.specs.Filling.{filling, told};
ghost use Rattle.tags.specs.Format.{profile_if};
ghost use Rattle.sheet.specs.Areas.{areas};
ghost use Rattle.survey.specs.Table.{tabulate_of};
ghost use Rattle.survey.specs.Numbers.{numbering, survey_numbers_of};
ghost use Rattle.transactions.specs.Latest.{latest_of};
ghost use Rattle.report.specs.Answer.{report_of};
ghost use Rattle.capi.specs.Answer.{answer_word, latest_word};
ghost use Rattle.capi.specs.Reader.{area_lengths_of, survey_word};

use capi::reader;

// Writes the heap's length and the record area's, as the sheet has them. The value is 0.
#[unsafe(no_mangle)]
pub extern "C" fn cg_area_lengths(userland: bool, sheet: &[u8], lengths: &mut [u32]) -> u64
    ensures { filling result lengths.new
        ≡ told answer_word (area_lengths_of (profile_if userland) sheet.now lengths.old) }
{
    reader::cg_area_lengths(userland, sheet, lengths)
}

// Fills three numbers for each buffer: index, verdict number, size or offset. The value is the number of buffers.
#[unsafe(no_mangle)]
pub extern "C" fn cg_inspect(
    userland: bool,
    sheet: &[u8],
    heap: &[u8],
    records: &[u8],
    magazines: &[u32],
    rows: &mut [u32],
) -> u64
    ensures { filling result rows.new
        ≡ told answer_word
        (tabulate_of (profile_if userland) (areas sheet.now heap.now records.now) magazines.now
        rows.old) }
{
    reader::cg_inspect(userland, sheet, heap, records, magazines, rows)
}

// Fills the same numbers of an image with a log, and three of the chain: records met, ending, the record that it came back to.
// The value is the number of buffers.
#[unsafe(no_mangle)]
pub extern "C" fn cg_survey(
    userland: bool,
    sheet: &[u8],
    heap: &[u8],
    records: &[u8],
    magazines: &[u32],
    log: &[u8],
    rows: &mut [u32],
    chain: &mut [u32],
) -> u64
    ensures { numbering result rows.new chain.new
        ≡ survey_word
        (survey_numbers_of (profile_if userland) (areas sheet.now heap.now records.now) magazines.now
        (length log.now) rows.old chain.old) }
{
    reader::cg_survey(userland, sheet, heap, records, magazines, log, rows, chain)
}

// Finds the latest transaction of a buffer. The value is the log row's number, or 0x80000000 plus the record's index.
#[unsafe(no_mangle)]
pub extern "C" fn cg_latest(
    userland: bool,
    sheet: &[u8],
    heap: &[u8],
    records: &[u8],
    log: &[u8],
    index: u32,
    time: u32,
) -> u64
    ensures { result ≡ latest_word
        (latest_of (profile_if userland) (areas sheet.now heap.now records.now) log.now index time) }
{
    reader::cg_latest(userland, sheet, heap, records, log, index, time)
}

// Writes the report to the output's start. The value is the length filled.
#[unsafe(no_mangle)]
pub extern "C" fn cg_report(
    userland: bool,
    sheet: &[u8],
    heap: &[u8],
    records: &[u8],
    magazines: &[u32],
    log: &[u8],
    output: &mut [u8],
) -> u64
    ensures { filling result output.new
        ≡ told answer_word
        (report_of (profile_if userland) (areas sheet.now heap.now records.now) magazines.now
        (length log.now) output.old) }
{
    reader::cg_report(userland, sheet, heap, records, magazines, log, output)
}
