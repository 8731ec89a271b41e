// What is read off an image.
ghost use Rattle.std.specs.Prelude.{◌≡◌, length};
ghost use Rattle.tags.specs.Filling.{filling, told};
ghost use Rattle.tags.specs.Format.{profile_if};
ghost use Rattle.sheet.specs.Areas.{areas};
ghost use Rattle.survey.specs.Table.{tabulate_of};
ghost use Rattle.survey.specs.Numbers.{numbering, survey_numbers_of};
ghost use Rattle.transactions.specs.Latest.{latest_of};
ghost use Rattle.report.specs.Answer.{report_of};
ghost use Rattle.capi.specs.Answer.{answer_word, latest_word};
ghost use Rattle.capi.specs.Reader.{area_lengths_of, survey_word};

use crate::answer::{accepted, refused, word};
use report::answer;
use sheet::lent::Image;
use sheet::opening;
use survey::{numbers, table};
use tags::format::Profile;
use tags::refusal::Refusal;
use transactions::latest;
use transactions::latest::Transaction;

// Writes the heap's length and the record area's, as the sheet has them. The value is 0.
#[tactic(auto, unfolding(crate::specs::Reader::area_lengths_of))]
pub fn cg_area_lengths(userland: bool, sheet: &[u8], lengths: &mut [u32]) -> u64
    ensures { filling result lengths.new
        ≡ told answer_word (area_lengths_of (profile_if userland) sheet.now lengths.old) }
{
    let areas = match opening::area_lengths(Profile::from(userland), sheet) {
        Ok(areas) => areas,
        Err(why) => return refused(why),
    };
    if lengths.len() < 2 {
        return refused(Refusal::ShortOutput);
    }
    lengths[0] = areas.heap as u32;
    lengths[1] = areas.records as u32;
    accepted(0)
}

// Fills three numbers for each buffer: index, verdict number, size or offset. The value is the number of buffers.
pub fn cg_inspect(
    userland: bool,
    sheet: &[u8],
    heap: &[u8],
    records: &[u8],
    magazines: &[u32],
    rows: &mut [u32],
) -> u64
    ensures { filling result rows.new
        ≡ told answer_word
        (tabulate_of (profile_if userland) (areas sheet.now heap.now records.now) magazines.now
        rows.old) }
{
    let image = Image {
        sheet,
        heap,
        records,
    };
    word(table::tabulate(Profile::from(userland), &image, magazines, rows))
}

// Fills the same numbers of an image with a log, and three of the chain: records met, ending, the record that it came back to.
// The value is the number of buffers.
pub fn cg_survey(
    userland: bool,
    sheet: &[u8],
    heap: &[u8],
    records: &[u8],
    magazines: &[u32],
    log: &[u8],
    rows: &mut [u32],
    chain: &mut [u32],
) -> u64
    ensures { numbering result rows.new chain.new
        ≡ survey_word
        (survey_numbers_of (profile_if userland) (areas sheet.now heap.now records.now) magazines.now
        (length log.now) rows.old chain.old) }
{
    let image = Image {
        sheet,
        heap,
        records,
    };
    word(numbers::survey_numbers(Profile::from(userland), &image, magazines, log, rows, chain))
}

// Finds the latest transaction of a buffer. The value is the log row's number, or 0x80000000 plus the record's index.
pub fn cg_latest(
    userland: bool,
    sheet: &[u8],
    heap: &[u8],
    records: &[u8],
    log: &[u8],
    index: u32,
    time: u32,
) -> u64
    ensures { result ≡ latest_word
        (latest_of (profile_if userland) (areas sheet.now heap.now records.now) log.now index time) }
{
    let image = Image {
        sheet,
        heap,
        records,
    };
    match latest::find_latest(Profile::from(userland), &image, log, index, time) {
        Ok(Transaction::Row(k)) => accepted(k as u32),
        Ok(Transaction::Record(j)) => accepted(0x80000000 + j as u32),
        Err(why) => refused(why),
    }
}

// Writes the report to the output's start. The value is the length filled.
pub fn cg_report(
    userland: bool,
    sheet: &[u8],
    heap: &[u8],
    records: &[u8],
    magazines: &[u32],
    log: &[u8],
    output: &mut [u8],
) -> u64
    ensures { filling result output.new
        ≡ told answer_word
        (report_of (profile_if userland) (areas sheet.now heap.now records.now) magazines.now
        (length log.now) output.old) }
{
    let image = Image {
        sheet,
        heap,
        records,
    };
    word(answer::report(Profile::from(userland), &image, magazines, log, output))
}
