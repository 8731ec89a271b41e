// The findings of an image as numbers, three for each buffer: its index, the number of its verdict, and its size or offset.
ghost use Rattle.std.specs.Prelude.{◌≡◌, length};
ghost use Rattle.tags.specs.Filling.{filling};
ghost use Rattle.sheet.specs.Lent.{seen};
ghost use Rattle.verdicts.specs.Marked.{image_with_list};
ghost use Rattle.survey.specs.Table.{tabulate_in, tabulate_of};

use chain::marks;
use geometry::limits;
use sheet::lent::Image;
use sheet::open_image::OpenImage;
use sheet::opening;
use tags::format::Profile;
use tags::refusal::Refusal;
use verdicts::marked::MarkedImage;

// Marks an open image, judges every buffer and writes its numbers, or refuses and leaves the row as it was.
fn fill_table(
    image: &OpenImage,
    magazines: &[u32],
    marks: &mut [u8],
    rows: &mut [u32],
) -> Result<u32, Refusal>
    requires { length marks.old ≡ image.now.sheet.count }
    ensures { filling result rows.new ≡ tabulate_in (image_with_list image.now magazines.now) rows.old }
{
    let count = image.sheet.count;
    let walked = marks::mark(image.records, magazines, image.sheet, marks)?;
    if rows.len() < count * 3 {
        return Err(Refusal::ShortOutput);
    }
    let marked = MarkedImage {
        image: *image,
        magazines,
        marks,
        ending: walked.ending,
    };
    marked.tell_buffers(0, count, rows);
    Ok(count as u32)
}

// Fills a lent row of numbers, three for each buffer, or refuses and leaves it as it was.
pub fn tabulate(
    profile: Profile,
    image: &Image,
    magazines: &[u32],
    rows: &mut [u32],
) -> Result<u32, Refusal>
    ensures { filling result rows.new ≡ tabulate_of profile (seen image.now) magazines.now rows.old }
{
    // No `?` here: it copies the image that was opened, which takes 31 instructions of each call (counted).
    let image = match opening::open_image(profile, image) {
        Ok(image) => image,
        Err(why) => return Err(why),
    };
    let mut marks = [0u8; limits::MOST_BUFFERS];
    fill_table(&image, magazines, &mut marks[..image.sheet.count], rows)
}
