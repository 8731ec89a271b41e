// The marks: one lent byte for each of n places, of three digits. The lowest says whether the chain meets the record, the one above
// it how many records name the buffer, and the highest how often the magazine list has it: none, one, or more.
ghost use Rattle.std.specs.Prelude.{◌≡◌, [], ◌<◌, length, replicate, true, false, OnOk, OnErr, IfErr};
ghost use Rattle.geometry.specs.Sheet.{records_length};
ghost use Rattle.geometry.specs.Limits.{Lawful};
ghost use Rattle.sheet.specs.Areas.{all_buffers};
ghost use Rattle.tags.specs.declared.refusal.Refusal.TheVariants.{NoSuchBuffer};
ghost use Rattle.chain.specs.Walk.{area_of};
ghost use Rattle.chain.specs.Marks.{names_after, marks_in, marked_of, MarksIf, Lists, digits_of, with_name, with_listing};

use crate::walk;
use crate::walk::Walked;
use geometry::sheet::Sheet;
use places::records;
use tags::refusal::Refusal;

// What a byte says: whether the chain meets the record, how many records name the buffer, and how often it is listed, both 0, 1, or 2
// for more.
#[derive(Clone, Copy, Debug, PartialEq, Eq)]
pub struct Digits {
    pub met: bool,
    pub names: u8,
    pub listed: u8,
}

// Takes a byte's digits apart.
impl From<u8> for Digits {
    ghost from_gives = { λ b digits. digits ≡ digits_of b };

    fn from(b: u8) -> Digits {
        Digits {
            met: b % 2 != 0,
            names: b / 2 % 4,
            listed: b / 8,
        }
    }
}

// The byte with one record more that names the buffer.
fn with_name(b: u8) -> u8
    requires { b < 6 }
    ensures { result ≡ with_name b }
{
    if Digits::from(b).names == 2 { b } else { b + 2 }
}

// The byte with its buffer listed once more.
fn with_listing(b: u8) -> u8
    ensures { result ≡ with_listing b }
{
    if Digits::from(b).listed < 2 { b + 8 } else { b }
}

// Counts the records that name each buffer. A call of its own: compiled into `mark`, this loop and the walk's want more registers than
// there are, and take three instructions more for each record (an inspect of 512 buffers 7 % longer and more, measured).
#[inline(never)]
fn count_names(records: &[u8], g: Sheet, marks: &mut [u8])
    requires lawful { Lawful g }
    requires records_len { length records.now ≡ records_length g }
    requires marks_value { marks.old ≡ replicate g.count 0 }
    ensures { marks.new ≡ area_of g.count (names_after g records.now g.count) [] }
{
    for j in 0..g.count {
        if let Some(i) = g.find_paired(records::buffer(records, g, j), j) {
            marks[i] = with_name(marks[i]);
        }
    }
}

// Counts how often each buffer is listed, where every word is a buffer's address.
fn count_listed(magazines: &[u32], g: Sheet, marks: &mut [u8]) -> Result<(), Refusal>
    requires lawful { Lawful g }
    requires marks_len { length marks.old ≡ g.count }
    ensures ok { OnOk result (all_buffers g magazines.now ≡ true) }
    ensures err { OnErr result (all_buffers g magazines.now ≡ false) }
    ensures why { IfErr result (λ why. why ≡ NoSuchBuffer) }
    ensures marks { OnOk result (Lists g magazines.now marks.old marks.new) }
{
    for word in magazines {
        let Some(i) = g.find_buffer(*word) else {
            return Err(Refusal::NoSuchBuffer);
        };
        marks[i] = with_listing(marks[i]);
    }
    Ok(())
}

// Marks an image's records and buffers, whatever the marks were, and tells how many records the chain met and how it ends; or why
// the magazine list is refused.
pub fn mark(
    records: &[u8],
    magazines: &[u32],
    g: Sheet,
    marks: &mut [u8],
) -> Result<Walked, Refusal>
    requires lawful { Lawful g }
    requires records_len { length records.now ≡ records_length g }
    requires marks_len { length marks.old ≡ g.count }
    ensures marked { result ≡ marked_of g records.now magazines.now }
    ensures marks { MarksIf result marks.new (marks_in g records.now magazines.now) }
{
    if magazines.len() > g.count {
        return Err(Refusal::BadLength);
    }
    marks.fill(0);
    count_names(records, g, marks);
    count_listed(magazines, g, marks)?;
    Ok(walk::walk_from(records, g, marks))
}
