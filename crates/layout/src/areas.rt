// The chunks of the heap and the records, one after the other: buffer i is paired with record i, and record i leads to
// record i + 1.
ghost use Rattle.std.specs.Prelude.{◌≡◌, length};
ghost use Rattle.geometry.specs.Sheet.{heap_length, records_length};
ghost use Rattle.geometry.specs.Limits.{Lawful};
ghost use Rattle.layout.specs.Layout.{link_to, laid_areas};

use geometry::sheet::Sheet;
use places::{heap, records};

// Writes every chunk, that of a free buffer.
pub(crate) fn write_heap(heap: &mut [u8], g: Sheet)
    requires lawful { Lawful g }
    requires heap_len { length heap.old ≡ heap_length g }
    ensures { heap.new ≡ (laid_areas g).heap }
{
    for i in 0..g.count {
        heap::write_free(heap, g, i, g.record_address(i));
    }
}

// The word that leads to record i: its address, or 0 past the last.
#[tactic(auto, unfolding(crate::specs::Layout::link_to))]
fn link_to(g: Sheet, i: usize) -> u32
    requires { Lawful g }
    ensures { result ≡ link_to g i }
{
    if i < g.count {
        return g.record_address(i);
    }
    0
}

// Writes every record: the word that leads on and its buffer's address.
pub(crate) fn write_records(records: &mut [u8], g: Sheet)
    requires lawful { Lawful g }
    requires records_len { length records.old ≡ records_length g }
    ensures { records.new ≡ (laid_areas g).records }
{
    for i in 0..g.count {
        records::write(records, g, i, link_to(g, i + 1), g.buffer_address(i));
    }
}
