// The latest transaction of a buffer: the row of the log or the record, whichever has the smallest age. Uptime wraps after
// 49.7 days, so stamps are never compared, only their ages.
ghost use Rattle.std.specs.Prelude.{◌≡◌, ◌+◌, ◌*◌, ◌≤◌, ◌<◌, length};
ghost use Rattle.history.specs.Log.{row_size, rows_of};
ghost use Rattle.geometry.specs.Sheet.{records_length};
ghost use Rattle.geometry.specs.Limits.{Lawful};
ghost use Rattle.sheet.specs.Lent.{seen};
ghost use Rattle.transactions.specs.Latest.{row_later, latest_row, first_best, owned_latest, indexed_latest, latest_of, latest_part, LatestPlace};

use area::record;
use chain::pairing;
use geometry::sheet::Sheet;
use places::records;
use sheet::lent::Image;
use sheet::opening;
use tags::format::{Format, Profile};
use tags::refusal::Refusal;
use tags::verdict::Verdict;
use words::age;

// Where the latest transaction stands: a row of the log or a record.
#[derive(Clone, Copy, Debug, PartialEq, Eq)]
pub enum Transaction {
    Row(usize),
    Record(usize),
}

// Whether row k of the log is of the record at an address and no older than `least`.
fn is_later(f: Format, log: &[u8], k: usize, record_at: u32, time: u32, least: u32) -> bool
    requires { k * row_size + row_size ≤ length log.now }
    ensures { result ≡ row_later f log.now record_at time k least }
{
    history::row_record(f, log, k) == record_at
        && age::age(time, history::row_uptime(f, log, k)) <= least
}

// The row of the log that is latest of a record, given by its address and its stamp, if a row and not the record itself is. The loop
// keeps the row as a number, n where there is none: with an `Option` a branch stood for the two conditional moves of a turn, and where
// each row is younger or not by chance 1,024 of them took 6.0 microseconds in place of 1.8.
fn latest_row(f: Format, log: &[u8], record_at: u32, stamp: u32, time: u32) -> Option<usize>
    ensures { result
        ≡ (latest_row f log.now record_at time (first_best stamp time) (rows_of (length log.now))).row }
{
    let n = history::rows(log.len());
    let mut found = n;
    let mut least = age::age(time, stamp);
    for k in 0..n {
        if is_later(f, log, k, record_at, time, least) {
            found = k;
            least = age::age(time, history::row_uptime(f, log, k));
        }
    }
    (found < n).then_some(found)
}

// The latest transaction of the buffer whose own record is j.
fn latest_owned(
    records: &[u8],
    log: &[u8],
    g: Sheet,
    j: usize,
    time: u32,
) -> Result<Transaction, Refusal>
    requires lawful { Lawful g }
    requires records_len { length records.now ≡ records_length g }
    requires j_lt_count { j < g.count }
    ensures { result ≡ owned_latest g records.now log.now time j }
{
    let Ok(stamp) = u32::try_from(records::stamp(records, g, j)) else {
        return Err(Refusal::WideStamp);
    };
    match latest_row(g.format, log, g.record_address(j), stamp, time) {
        Some(k) => Ok(Transaction::Row(k)),
        None => Ok(Transaction::Record(j)),
    }
}

// The latest transaction of the buffer with an index, of an open image.
#[tactic(auto, using(chain::proofs::Owns::own_below), unfolding(crate::specs::Latest::indexed_latest))]
fn latest_of(
    records: &[u8],
    log: &[u8],
    g: Sheet,
    index: u32,
    time: u32,
) -> Result<Transaction, Refusal>
    requires lawful { Lawful g }
    requires records_len { length records.now ≡ records_length g }
    ensures { result ≡ indexed_latest g records.now log.now index time }
{
    let i = index as usize;
    if i >= g.count {
        return Err(Refusal::NoSuchBuffer);
    }
    let j = pairing::own_record(records, g, i).ok_or(Refusal::Damage(Verdict::NotOneRecord))?;
    latest_owned(records, log, g, j, time)
}

// Where the latest transaction of the buffer with an index stands.
#[tactic(auto, unfolding(crate::specs::Latest::latest_of))]
pub fn find_latest(
    profile: Profile,
    image: &Image,
    log: &[u8],
    index: u32,
    time: u32,
) -> Result<Transaction, Refusal>
    ensures { result ≡ latest_of profile (seen image.now) log.now index time }
{
    let records = image.records;
    let g = opening::open_with_log(
        profile,
        image.sheet,
        image.heap.len(),
        records.len(),
        log.len(),
    )?;
    latest_of(records, log, g, index, time)
}

// The latest transaction itself, as a part of the log or of the record area; empty where it is refused.
pub fn latest<'s, 'h, 'a>(
    profile: Profile,
    image: &Image<'s, 'h, 'a>,
    log: &'a [u8],
    index: u32,
    time: u32,
) -> &'a [u8]
    ensures bytes { result.now
        ≡ latest_part profile image.now.records.now log.now
        (latest_of profile (seen image.now) log.now index time) }
    ensures place { LatestPlace profile image.now.records log.entry
        (latest_of profile (seen image.now) log.now index time) result }
{
    match find_latest(profile, image, log, index, time) {
        Ok(Transaction::Row(k)) => history::row(log, k),
        Ok(Transaction::Record(j)) => record::whole(profile, image.records, j),
        Err(_) => &log[..0],
    }
}
