// Lay out: an image in which every buffer is free. A plan that only reads, and a commit that cannot fail.
//
// The layer promises: the three areas of a lawful request are written whole, buffer i paired with record i and the chain
// from record 0 on in order; any other request is refused, and every lent byte is as before.
#![tactic(auto)]

ghost use Rattle.std.specs.Prelude.{◌≡◌, length, IfOk};
ghost use Rattle.sheet.specs.Areas.{by_lengths, outcome};
ghost use Rattle.sheet.specs.Lent.{seen, lent, Call};
ghost use Rattle.layout.specs.Layout.{laid_areas, lay_out_of, lay_out_plan, Planned};

use geometry::sheet::Sheet;
use sheet::lent::{Image, ImageMut};
use sheet::{fields, opening};
use tags::format::Format;
use tags::refusal::Refusal;

// The chunks and the records.
mod areas;

// Whether these areas can be laid out with these numbers: the tests 1, 2 and 3.
#[tactic(auto, unfolding(crate::specs::Layout::lay_out_plan))]
fn plan(g: Sheet, image: &Image) -> Result<Sheet, Refusal>
    ensures sheet { result
        ≡ lay_out_plan g (length image.now.sheet.now) (length image.now.heap.now)
        (length image.now.records.now) }
    ensures planned { IfOk result (by_lengths Planned (seen image.now)) }
{
    if image.sheet.len() != fields::LENGTH {
        return Err(Refusal::BadSheet);
    }
    opening::judge_numbers(g, image.heap.len(), image.records.len())
}

// Writes all three areas.
#[tactic(auto, unfolding(crate::specs::Layout::laid_areas))]
fn commit(image: &mut ImageMut, g: Sheet)
    requires { by_lengths Planned (lent image.old) g }
    ensures { Call result image.old image.new (outcome result (laid_areas g)) }
{
    fields::write(image.sheet, g);
    areas::write_heap(image.heap, g);
    areas::write_records(image.records, g);
}

// Lays an image out, or refuses and leaves every byte as it was. The six numbers stay apart, as the C interface and `lay_out_of` take
// them: no caller holds them as one value, and the first line makes the sheet of them.
#[tactic(auto, unfolding(crate::specs::Layout::lay_out_of))]
pub fn lay_out(
    f: Format,
    cache: u32,
    heap_base: u32,
    record_base: u32,
    size: u32,
    count: u32,
    image: &mut ImageMut,
) -> Result<u32, Refusal>
    ensures { Call result image.old image.new
        (lay_out_of (lent image.old) f cache heap_base record_base size count) }
{
    let asked = Sheet::laid(f, cache, heap_base, record_base, size, count);
    let g = plan(asked, &image.view())?;
    commit(image, g);
    Ok(0)
}
