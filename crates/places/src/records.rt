// The words of the records.
ghost use Rattle.std.specs.Prelude.{◌≡◌, ◌<◌, length};
ghost use Rattle.std.proofs.lemmas.List.Edits.{sets};
ghost use Rattle.area.specs.Record.{next_word, address_word, stamp_number, with_next, stamped, record_bytes};
ghost use Rattle.geometry.specs.Sheet.{records_length, record_place};
ghost use Rattle.geometry.specs.Limits.{Lawful};

use area::record;
use area::record::Stamp;
use geometry::sheet::Sheet;

// The next word of record j.
pub fn next(records: &[u8], g: Sheet, j: usize) -> u32
    requires lawful { Lawful g }
    requires records_len { length records.now ≡ records_length g }
    requires j_lt_count { j < g.count }
    ensures { result ≡ next_word g.format records.now j }
{
    record::read(g.format, records, j, record::NEXT)
}

// The address of the buffer that record j names.
pub fn buffer(records: &[u8], g: Sheet, j: usize) -> u32
    requires lawful { Lawful g }
    requires records_len { length records.now ≡ records_length g }
    requires j_lt_count { j < g.count }
    ensures { result ≡ address_word g.format records.now j }
{
    record::read(g.format, records, j, record::BUFFER)
}

// The timestamp of record j.
pub fn stamp(records: &[u8], g: Sheet, j: usize) -> u64
    requires lawful { Lawful g }
    requires records_len { length records.now ≡ records_length g }
    requires j_lt_count { j < g.count }
    ensures { result ≡ stamp_number g.format records.now j }
{
    record::read_stamp(g.format, records, j)
}

// Writes the next word of record j.
pub fn set_next(records: &mut [u8], g: Sheet, j: usize, next: u32)
    requires lawful { Lawful g }
    requires records_len { length records.old ≡ records_length g }
    requires j_lt_count { j < g.count }
    ensures { records.new ≡ with_next g.format records.old j next }
{
    record::set_next(g.format, records, j, next);
}

// Writes the stamp and the thread of record j.
pub fn set_stamp(records: &mut [u8], g: Sheet, j: usize, s: Stamp)
    requires lawful { Lawful g }
    requires records_len { length records.old ≡ records_length g }
    requires j_lt_count { j < g.count }
    ensures { records.new ≡ stamped g.format records.old j s }
{
    record::set_stamp(g.format, records, j, s);
}

// Writes record j whole: its next word, the address of its buffer and the cache, and 0 elsewhere.
pub fn write(records: &mut [u8], g: Sheet, j: usize, next: u32, buffer: u32)
    requires lawful { Lawful g }
    requires records_len { length records.old ≡ records_length g }
    requires j_lt_count { j < g.count }
    ensures { records.new
        ≡ sets records.old (record_place g j) (record_bytes g.format next buffer g.cache) }
{
    record::write(g.format, records, j, next, buffer, g.cache);
}
