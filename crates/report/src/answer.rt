// The report of an image: all of its text, or a refusal and an output that stays as it was.
ghost use Rattle.std.specs.Prelude.{◌≡◌, length};
ghost use Rattle.tags.specs.Filling.{filling};
ghost use Rattle.sheet.specs.Lent.{seen};
ghost use Rattle.verdicts.specs.Marked.{image_with_list};
ghost use Rattle.report.specs.Answer.{report_image, report_of};

use crate::whole;
use chain::marks;
use geometry::limits;
use sheet::lent::Image;
use sheet::open_image::OpenImage;
use sheet::opening;
use tags::format::Profile;
use tags::refusal::Refusal;
use verdicts::marked::MarkedImage;

// Writes the report of an image that is open, with a byte for each record and buffer to mark it. Nothing else is kept of a record, and
// nothing of a buffer whose line is put.
fn report_image(
    image: &OpenImage,
    magazines: &[u32],
    marks: &mut [u8],
    output: &mut [u8],
) -> Result<u32, Refusal>
    requires { length marks.old ≡ image.now.sheet.count }
    ensures { filling result output.new ≡ report_image (image_with_list image.now magazines.now) output.old }
{
    let walked = marks::mark(image.records, magazines, image.sheet, marks)?;
    let marked = MarkedImage {
        image: *image,
        magazines,
        marks,
        ending: walked.ending,
    };
    let len = whole::write_report(&marked, walked.met, output).ok_or(Refusal::ShortOutput)?;
    Ok(len as u32)
}

// Writes the report of an image to the output's start and answers its length.
pub fn report(
    profile: Profile,
    image: &Image,
    magazines: &[u32],
    log: &[u8],
    output: &mut [u8],
) -> Result<u32, Refusal>
    ensures { filling result output.new
        ≡ report_of profile (seen image.now) magazines.now (length log.now) output.old }
{
    let image = opening::open_image_with_log(profile, image, log)?;
    let mut marks = [0u8; limits::MOST_BUFFERS];
    report_image(&image, magazines, &mut marks[..image.sheet.count], output)
}
