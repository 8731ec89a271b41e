// The numbers of a sheet, and what they say: where a buffer and a record stand, and which of them is at an address.
ghost use Rattle.std.specs.Prelude.{◌≡◌, ◌<◌};
ghost use Rattle.geometry.specs.Sheet.{laid_sheet, heap_length, records_length, chunk_place, record_place, buffer_address, record_address, buffer_of, record_of};
ghost use Rattle.geometry.specs.Limits.{SizesOf, Lawful};

use crate::limits;
use area::{place, record};
use tags::format::Format;

// The numbers of a sheet. `format` is how the image writes its words and grants, `size` and `chunk` are the lengths of a buffer and of its
// chunk, `count` is the number of buffers and of records, `head` the chain's first word. The order is for the machine: a sheet goes from call to
// call in memory, and fields that stand side by side are copied eight bytes at a time, which waits where they were written one by one.
// So a number of eight bytes comes first, where a refusal has its own, and others keep apart the pairs that are not needed together.
#[derive(Clone, Copy, Debug, PartialEq, Eq)]
pub struct Sheet {
    pub size: usize,
    pub heap_base: u32,
    pub record_base: u32,
    pub chunk: usize,
    pub cache: u32,
    pub flags: u32,
    pub count: usize,
    pub head: u32,
    pub format: Format,
}

impl Sheet {
    // The sheet that lay out's arguments ask for: a chunk has 16 bytes more than its buffer, and the chain starts at record 0.
    pub fn laid(
        f: Format,
        cache: u32,
        heap_base: u32,
        record_base: u32,
        size: u32,
        count: u32,
    ) -> Sheet
        ensures { result ≡ laid_sheet f cache heap_base record_base size count }
    {
        Sheet {
            format: f,
            cache,
            heap_base,
            record_base,
            size: size as usize,
            chunk: size as usize + 16,
            count: count as usize,
            head: record_base,
            flags: limits::FLAGS,
        }
    }

    // How long the heap is.
    pub fn heap_length(self) -> usize
        requires { SizesOf self }
        ensures { result ≡ heap_length self }
    {
        self.count * self.chunk
    }

    // How long the record area is.
    pub fn records_length(self) -> usize
        requires { SizesOf self }
        ensures { result ≡ records_length self }
    {
        record::place(self.format.profile, self.count)
    }

    // Where chunk i stands in the heap.
    pub fn chunk_place(self, i: usize) -> usize
        requires lawful { Lawful self }
        requires i_lt_count { i < self.count }
        ensures { result ≡ chunk_place self i }
    {
        i * self.chunk
    }

    // Where record j stands in the record area.
    pub fn record_place(self, j: usize) -> usize
        requires lawful { Lawful self }
        requires j_lt_count { j < self.count }
        ensures { result ≡ record_place self j }
    {
        record::place(self.format.profile, j)
    }

    // The address of buffer i.
    pub fn buffer_address(self, i: usize) -> u32
        requires lawful { Lawful self }
        requires i_lt_count { i < self.count }
        ensures { result ≡ buffer_address self i }
    {
        self.heap_base + self.chunk_place(i) as u32
    }

    // The address of record j.
    pub fn record_address(self, j: usize) -> u32
        requires lawful { Lawful self }
        requires j_lt_count { j < self.count }
        ensures { result ≡ record_address self j }
    {
        self.record_base + self.record_place(j) as u32
    }

    // The buffer whose address a word is.
    pub fn find_buffer(self, word: u32) -> Option<usize>
        ensures { result ≡ buffer_of self word }
    {
        place::find(self.heap_base, self.chunk, self.count, word)
    }

    // The same for the word of record j. Buffers mostly stand in the order of their records, up or down, so these two are tried
    // first: then a comparison tells it, and no division.
    pub fn find_paired(self, word: u32, j: usize) -> Option<usize>
        requires lawful { Lawful self }
        requires j_lt_count { j < self.count }
        ensures { result ≡ buffer_of self word }
    {
        if self.buffer_address(j) == word {
            return Some(j);
        }
        let other = self.count - 1 - j;
        if self.buffer_address(other) == word {
            return Some(other);
        }
        self.find_buffer(word)
    }

    // The record whose address a word is.
    pub fn find_record(self, word: u32) -> Option<usize>
        ensures { result ≡ record_of self word }
    {
        let size = record::size(self.format.profile);
        record::find(self.record_base, size, self.count, word)
    }
}
