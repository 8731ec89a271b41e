// The findings of an image: for each buffer its index and its verdict, with its size or offset. One pass over the records, one over
// the magazine list, one walk of the chain, one pass over the heap.
ghost use Rattle.std.specs.Prelude.{◌≡◌, ◌≤◌, length};
ghost use Rattle.tags.specs.Filling.{filling};
ghost use Rattle.sheet.specs.Areas.{image_listed};
ghost use Rattle.sheet.specs.Lent.{seen};
ghost use Rattle.verdicts.specs.Marked.{image_marked};
ghost use Rattle.image.specs.Inspect.{finding_of, filled, inspection_of, inspect_of};

use chain::marks;
use geometry::limits;
use sheet::lent::Image;
use sheet::open_image::OpenImage;
use sheet::opening;
use tags::format::Profile;
use tags::refusal::Refusal;
use tags::verdict::Verdict;
use verdicts::marked::MarkedImage;

// What is found of a buffer: its index, and its verdict, with its size or offset.
#[derive(Clone, Copy, Debug, PartialEq, Eq)]
pub struct Finding {
    pub index: usize,
    pub verdict: Verdict,
}

// Fills the row's start with the findings of an image.
fn fill(image: &MarkedImage, rows: &mut [Finding])
    requires { image.now.image.sheet.count ≤ length rows.old }
    ensures { rows.new
        ≡ filled (finding_of (image_marked image.now)) rows.old image.now.image.sheet.count }
{
    for i in 0..image.image.sheet.count {
        let verdict = Verdict::from(image.judge_buffer(i));
        rows[i] = Finding { index: i, verdict };
    }
}

// Marks an open image, and where there is room fills the row.
#[tactic(auto, using(crate::proofs::Findings::count_small))]
fn inspect_open(
    image: &OpenImage,
    magazines: &[u32],
    marks: &mut [u8],
    rows: &mut [Finding],
) -> Result<u32, Refusal>
    requires { length marks.old ≡ image.now.sheet.count }
    ensures { filling result rows.new
        ≡ inspection_of
        (image_listed image.now.sheet image.now.heap.now image.now.records.now magazines.now) rows.old }
{
    let n = image.sheet.count;
    let walked = marks::mark(image.records, magazines, image.sheet, marks)?;
    if rows.len() < n {
        return Err(Refusal::ShortOutput);
    }
    let marked = MarkedImage {
        image: *image,
        magazines,
        marks,
        ending: walked.ending,
    };
    fill(&marked, rows);
    Ok(n as u32)
}

// Fills a lent row of findings, one for each buffer, or refuses and leaves it as it was. Rows past the last buffer stay.
#[tactic(auto, using(crate::proofs::Findings::count_small), unfolding(crate::specs::Inspect::inspect_of))]
pub fn inspect(
    profile: Profile,
    image: &Image,
    magazines: &[u32],
    rows: &mut [Finding],
) -> Result<u32, Refusal>
    ensures { filling result rows.new ≡ inspect_of profile (seen image.now) magazines.now rows.old }
{
    let open = opening::open_image(profile, image)?;
    let n = open.sheet.count;
    let mut marks = [0u8; limits::MOST_BUFFERS];
    inspect_open(&open, magazines, &mut marks[..n], rows)
}
