// Whether the numbers of a sheet keep their limits.
//
// The layer promises: the answer is that of docs/RULES.md's limits. What they are is defined with the sheet's numbers, in `geometry`.
#![tactic(auto)]

ghost use Rattle.std.specs.Prelude.{◌≡◌, ◌≤◌};
ghost use Rattle.geometry.specs.Limits.{sizes_lawful, bases_lawful, lawful};

use geometry::limits;
use geometry::sheet::Sheet;

// Whether the sizes, the count and the flags keep their limits.
#[tactic(auto, unfolding(geometry::specs::Limits::sizes_lawful))]
fn sizes_lawful(size: usize, chunk: usize, count: usize, flags: u32) -> bool
    ensures { result ≡ sizes_lawful size chunk count flags }
{
    size % 8 == 0
        && 8 <= size
        && size <= 4096
        && chunk == size + 16
        && 1 <= count
        && count <= limits::MOST_BUFFERS
        && count * chunk <= 65536
        && flags == limits::FLAGS
}

// Whether the bases of two areas keep their limits.
#[tactic(auto, unfolding(geometry::specs::Limits::bases_lawful))]
fn bases_lawful(heap: u64, records: u64, heap_len: u64, records_len: u64) -> bool
    requires heap_bound { heap ≤ 4294967296 }
    requires records_bound { records ≤ 4294967296 }
    requires heap_len_bound { heap_len ≤ 4294967296 }
    requires records_len_bound { records_len ≤ 4294967296 }
    ensures { result ≡ bases_lawful heap records heap_len records_len }
{
    heap != 0
        && heap % 8 == 0
        && records != 0
        && records % 8 == 0
        && heap + heap_len <= 4294967296
        && records + records_len <= 4294967296
        && (heap + heap_len <= records || records + records_len <= heap)
}

// Whether a sheet's numbers keep their limits.
#[tactic(auto, unfolding(geometry::specs::Limits::lawful))]
pub fn is_lawful(g: Sheet) -> bool
    ensures { result ≡ lawful g }
{
    sizes_lawful(g.size, g.chunk, g.count, g.flags)
        && bases_lawful(
            g.heap_base as u64,
            g.record_base as u64,
            g.heap_length() as u64,
            g.records_length() as u64,
        )
}
