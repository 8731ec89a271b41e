// The chunks of the heap.
ghost use Rattle.std.specs.Prelude.{◌≡◌, true, ◌<◌, length};
ghost use Rattle.std.proofs.lemmas.List.Edits.{sets};
ghost use Rattle.chunks.specs.Chunk.{lawful_size, free_chunk, granted_chunk};
ghost use Rattle.geometry.specs.Sheet.{heap_length, chunk_place};
ghost use Rattle.geometry.specs.Limits.{Lawful};
ghost use Rattle.sheet.specs.Areas.{chunk_in};

use chunks::chunk;
use chunks::chunk::Grant;
use geometry::sheet::Sheet;

// The chunk of buffer i.
pub fn chunk<'a>(heap: &'a [u8], g: Sheet, i: usize) -> &'a [u8]
    requires lawful { Lawful g }
    requires heap_len { length heap.now ≡ heap_length g }
    requires i_lt_count { i < g.count }
    ensures { result.now ≡ chunk_in g heap.now i }
{
    let at = g.chunk_place(i);
    &heap[at..at + g.chunk]
}

// Writes the chunk of buffer i as a free one, whose record is at an address.
pub fn write_free(heap: &mut [u8], g: Sheet, i: usize, record_at: u32)
    requires lawful { Lawful g }
    requires heap_len { length heap.old ≡ heap_length g }
    requires i_lt_count { i < g.count }
    ensures { heap.new
        ≡ sets heap.old (chunk_place g i) (free_chunk g.format g.size record_at) }
{
    let at = g.chunk_place(i);
    chunk::write_free(g.format, &mut heap[at..at + g.chunk], record_at);
}

// Writes the chunk of buffer i as a granted one, whose record is at an address.
pub fn write_granted(heap: &mut [u8], g: Sheet, i: usize, record_at: u32, grant: Grant)
    requires lawful { Lawful g }
    requires heap_len { length heap.old ≡ heap_length g }
    requires i_lt_count { i < g.count }
    requires grant_value { lawful_size g.format.profile g.size grant ≡ true }
    ensures { heap.new
        ≡ sets heap.old (chunk_place g i) (granted_chunk g.format g.size record_at grant) }
{
    let at = g.chunk_place(i);
    chunk::write_granted(g.format, &mut heap[at..at + g.chunk], record_at, grant);
}
