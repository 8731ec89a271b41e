// Which record is a buffer's own. It is read off the records and never assumed: any record may name any buffer.
ghost use Rattle.std.specs.Prelude.{◌≡◌, ◌<◌, length};
ghost use Rattle.geometry.specs.Sheet.{records_length};
ghost use Rattle.geometry.specs.Limits.{Lawful};
ghost use Rattle.chain.specs.Pairing.{own_in};

use geometry::sheet::Sheet;
use places::records;

// Buffer i's own record, by one pass over the records: how many name the buffer, and which of them is the last.
pub fn own_record(records: &[u8], g: Sheet, i: usize) -> Option<usize>
    requires lawful { Lawful g }
    requires records_len { length records.now ≡ records_length g }
    requires i_lt_count { i < g.count }
    ensures { result ≡ own_in g records.now i }
{
    let buffer = g.buffer_address(i);
    let mut names: usize = 0;
    let mut last = 0;
    for j in 0..g.count {
        if records::buffer(records, g, j) == buffer {
            names += 1;
            last = j;
        }
    }
    if names == 1 { Some(last) } else { None }
}
