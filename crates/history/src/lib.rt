// The format of the log: rows of four words, the record's address at 0, the uptime at 4, the thread at 8 and the kind at 12. No rule
// reads the last two.
//
// The layer promises: a log can have so many bytes, and has so many rows of them, or it cannot; row k, and each word of it that a
// rule reads, is the one at its place.
#![tactic(auto)]

ghost use Rattle.std.specs.Prelude.{◌≡◌, ◌+◌, ◌*◌, ◌≤◌, length};
ghost use Rattle.words.specs.Word.{part};
ghost use Rattle.area.specs.Place.{PartAt};
ghost use Rattle.history.specs.Log.{row_size, rows_of, log_right, row_record, row_uptime};

use tags::format::Format;

pub const ROW: usize = 16;

const MOST: usize = 16384;

const RECORD: usize = 0;

const UPTIME: usize = 4;

// How many rows a log of so many bytes has.
pub fn rows(len: usize) -> usize
    ensures { result ≡ rows_of len }
{
    len / ROW
}

// Whether a log can have so many bytes.
#[tactic(auto, unfolding(crate::specs::Log::log_right))]
pub fn is_log(len: usize) -> bool
    ensures { result ≡ log_right len }
{
    len % ROW == 0 && len <= MOST
}

// The address of the record that row k names.
#[tactic(auto, unfolding(crate::specs::Log::row_record))]
pub fn row_record(f: Format, log: &[u8], k: usize) -> u32
    requires { k * row_size + row_size ≤ length log.now }
    ensures { result ≡ row_record f log.now k }
{
    f.order.read_u32(log, k * ROW + RECORD)
}

// Row k, as a part of the log.
pub fn row<'a>(log: &'a [u8], k: usize) -> &'a [u8]
    requires { k * row_size + row_size ≤ length log.now }
    ensures bytes { result.now ≡ part log.now (k * row_size) row_size }
    ensures place { PartAt log.entry (k * row_size) result }
{
    let at = k * ROW;
    &log[at..at + ROW]
}

// The uptime of row k.
#[tactic(auto, unfolding(crate::specs::Log::row_uptime))]
pub fn row_uptime(f: Format, log: &[u8], k: usize) -> u32
    requires { k * row_size + row_size ≤ length log.now }
    ensures { result ≡ row_uptime f log.now k }
{
    f.order.read_u32(log, k * ROW + UPTIME)
}
