// The opening of an image: every call begins with the tests 1, 2 and 3.
ghost use Rattle.std.specs.Prelude.{◌≡◌, ◌≤◌, length, IfOk};
ghost use Rattle.geometry.specs.Limits.{Lawful};
ghost use Rattle.sheet.specs.Areas.{opening, opening_with_log};
ghost use Rattle.sheet.specs.Fields.{short_length};
ghost use Rattle.sheet.specs.Lent.{seen, sheet_open};
ghost use Rattle.sheet.specs.Opening.{measured, numbered, ordered, opened_of, opened_with_log, areas_of, lengths_of};

use crate::fields;
use crate::lent::Image;
use crate::open_image::OpenImage;
use geometry::sheet::Sheet;
use tags::format::Profile;
use tags::refusal::Refusal;

// The lengths of the heap and of the record area, as a sheet has them.
#[derive(Clone, Copy, Debug, PartialEq, Eq)]
pub struct Lengths {
    pub heap: usize,
    pub records: usize,
}

// The last step of the opening: the areas' lengths.
#[tactic(auto, unfolding(crate::specs::Opening::measured))]
fn measure(g: Sheet, heap_len: usize, records_len: usize) -> Result<Sheet, Refusal>
    requires { Lawful g }
    ensures { result ≡ measured g heap_len records_len }
{
    if heap_len != g.heap_length() || records_len != g.records_length() {
        return Err(Refusal::BadLength);
    }
    Ok(g)
}

// The step before it: the sheet's numbers.
#[tactic(auto, unfolding(crate::specs::Opening::numbered))]
pub fn judge_numbers(g: Sheet, heap_len: usize, records_len: usize) -> Result<Sheet, Refusal>
    ensures { result ≡ numbered g heap_len records_len }
{
    if !lawful::is_lawful(g) {
        return Err(Refusal::BadNumber);
    }
    measure(g, heap_len, records_len)
}

// The step before that: the number of the order, of a sheet of either form.
#[tactic(auto, unfolding(crate::specs::Opening::ordered))]
#[inline(always)]
fn judge_order(
    profile: Profile,
    sheet: &[u8],
    heap_len: usize,
    records_len: usize,
) -> Result<Sheet, Refusal>
    requires { short_length ≤ length sheet.now }
    ensures { result ≡ ordered profile sheet.now heap_len records_len }
{
    if fields::order_number(sheet) > 1 {
        return Err(Refusal::BadNumber);
    }
    judge_numbers(fields::read(profile, sheet), heap_len, records_len)
}

// Opens an image whose areas have these lengths. This and the step before it are compiled into their callers, and `open_image` into
// none: where they are calls of their own, the sheet that they answer is copied once more in each (measured: 5 to 10 ns).
#[tactic(auto, unfolding(crate::specs::Opening::opened_of))]
#[inline(always)]
pub fn open(
    profile: Profile,
    sheet: &[u8],
    heap_len: usize,
    records_len: usize,
) -> Result<Sheet, Refusal>
    ensures { result ≡ opened_of profile sheet.now heap_len records_len }
{
    if !fields::is_shaped(sheet) {
        return Err(Refusal::BadSheet);
    }
    judge_order(profile, sheet, heap_len, records_len)
}

// The image that three areas are, or why they are none.
#[inline(never)]
pub fn open_image<'s, 'a>(
    profile: Profile,
    image: &Image<'s, 'a, 'a>,
) -> Result<OpenImage<'a>, Refusal>
    ensures sheet { sheet_open result ≡ opening profile (seen image.now) }
    ensures areas { IfOk result (λ o. (o.heap ≡ image.now.heap) × (o.records ≡ image.now.records)) }
{
    let sheet = open(profile, image.sheet, image.heap.len(), image.records.len())?;
    Ok(OpenImage {
        sheet,
        heap: image.heap,
        records: image.records,
    })
}

// The same where a log is given too.
#[tactic(auto, unfolding(crate::specs::Opening::opened_with_log))]
pub fn open_with_log(
    profile: Profile,
    sheet: &[u8],
    heap_len: usize,
    records_len: usize,
    log_len: usize,
) -> Result<Sheet, Refusal>
    ensures { result ≡ opened_with_log profile sheet.now heap_len records_len log_len }
{
    let g = open(profile, sheet, heap_len, records_len)?;
    if history::is_log(log_len) {
        Ok(g)
    } else {
        Err(Refusal::BadLength)
    }
}

// The image that three areas are where a log is given too, or why they are none.
pub fn open_image_with_log<'s, 'a>(
    profile: Profile,
    image: &Image<'s, 'a, 'a>,
    log: &[u8],
) -> Result<OpenImage<'a>, Refusal>
    ensures sheet { sheet_open result ≡ opening_with_log profile (seen image.now) (length log.now) }
    ensures areas { IfOk result (λ o. (o.heap ≡ image.now.heap) × (o.records ≡ image.now.records)) }
{
    let sheet = open_with_log(
        profile,
        image.sheet,
        image.heap.len(),
        image.records.len(),
        log.len(),
    )?;
    Ok(OpenImage {
        sheet,
        heap: image.heap,
        records: image.records,
    })
}

// The lengths of the areas, by the sheet's numbers.
#[tactic(auto, unfolding(crate::specs::Opening::areas_of))]
fn measure_areas(g: Sheet) -> Result<Lengths, Refusal>
    ensures { result ≡ areas_of g }
{
    if lawful::is_lawful(g) {
        Ok(Lengths {
            heap: g.heap_length(),
            records: g.records_length(),
        })
    } else {
        Err(Refusal::BadNumber)
    }
}

// How long the areas of an image are, for a caller that has only its sheet yet.
#[tactic(auto, unfolding(crate::specs::Opening::lengths_of))]
pub fn area_lengths(profile: Profile, sheet: &[u8]) -> Result<Lengths, Refusal>
    ensures { result ≡ lengths_of profile sheet.now }
{
    if !fields::is_shaped(sheet) {
        return Err(Refusal::BadSheet);
    }
    if fields::order_number(sheet) > 1 {
        return Err(Refusal::BadNumber);
    }
    measure_areas(fields::read(profile, sheet))
}
