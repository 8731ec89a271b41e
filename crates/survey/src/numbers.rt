// A survey as numbers: three for each buffer, and three for the chain.
ghost use Rattle.std.specs.Prelude.{◌≡◌, ◌≤◌, ◌<◌, length};
ghost use Rattle.std.proofs.lemmas.List.Edits.{sets};
ghost use Rattle.tags.specs.Ending.{ending_value};
ghost use Rattle.geometry.specs.Limits.{count_most};
ghost use Rattle.sheet.specs.Lent.{seen};
ghost use Rattle.verdicts.specs.Marked.{image_with_list};
ghost use Rattle.survey.specs.Numbers.{chain_numbers, numbering, room_for, survey_numbers_in, survey_numbers_of};

use chain::marks;
use geometry::limits;
use sheet::lent::Image;
use sheet::open_image::OpenImage;
use sheet::opening;
use tags::ending::Ending;
use tags::format::Profile;
use tags::refusal::Refusal;
use verdicts::marked::MarkedImage;

// The record that a chain came back to, else 0.
fn ending_value(ending: Ending) -> u32
    requires { ending_value ending < 4294967296 }
    ensures { result ≡ ending_value ending }
{
    match ending {
        Ending::Again(i) => i as u32,
        Ending::End | Ending::Broken => 0,
    }
}

// Writes the numbers of a chain that met so many records and ends so.
fn put_chain(chain: &mut [u32], met: usize, ending: Ending)
    requires in_bounds { 3 ≤ length chain.old }
    requires met_bound { met < 4294967296 }
    requires ending_bound { ending_value ending < 4294967296 }
    ensures { chain.new ≡ sets chain.old 0 (chain_numbers met ending) }
{
    chain[0] = met as u32;
    chain[1] = ending.number();
    chain[2] = ending_value(ending);
}

// Whether two rows of these lengths have room for three numbers of each buffer, and for three of the chain.
fn has_room(count: usize, rows: usize, chain: usize) -> bool
    requires { count ≤ count_most }
    ensures { result ≡ room_for count rows chain }
{
    count * 3 <= rows && 3 <= chain
}

// Marks an open image, judges every buffer and writes its numbers and those of the chain, or refuses and leaves both rows as they were.
fn fill_both(
    image: &OpenImage,
    magazines: &[u32],
    marks: &mut [u8],
    rows: &mut [u32],
    chain: &mut [u32],
) -> Result<u32, Refusal>
    requires { length marks.old ≡ image.now.sheet.count }
    ensures { numbering result rows.new chain.new
        ≡ survey_numbers_in (image_with_list image.now magazines.now) rows.old chain.old }
{
    let count = image.sheet.count;
    let walked = marks::mark(image.records, magazines, image.sheet, marks)?;
    if !has_room(count, rows.len(), chain.len()) {
        return Err(Refusal::ShortOutput);
    }
    let marked = MarkedImage {
        image: *image,
        magazines,
        marks,
        ending: walked.ending,
    };
    marked.tell_buffers(0, count, rows);
    put_chain(chain, walked.met, walked.ending);
    Ok(count as u32)
}

// Fills a lent row with three numbers for each buffer and another with the three of the chain, of an image with a log; or
// refuses and leaves both as they were.
pub fn survey_numbers(
    profile: Profile,
    image: &Image,
    magazines: &[u32],
    log: &[u8],
    rows: &mut [u32],
    chain: &mut [u32],
) -> Result<u32, Refusal>
    ensures { numbering result rows.new chain.new
        ≡ survey_numbers_of profile (seen image.now) magazines.now (length log.now) rows.old chain.old }
{
    let image = opening::open_image_with_log(profile, image, log)?;
    let mut marks = [0u8; limits::MOST_BUFFERS];
    fill_both(
        &image,
        magazines,
        &mut marks[..image.sheet.count],
        rows,
        chain,
    )
}
