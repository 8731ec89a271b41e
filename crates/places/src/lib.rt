// The chunk of a buffer and the words of a record, by their index and the numbers of the sheet.
//
// The layer promises: what is read or written for buffer i or record j of an open image is that chunk or that record and no other.
#![tactic(auto)]

// The chunks of the heap.
pub mod heap;

// The records.
pub mod records;

// A buffer and its own record.
pub mod spot;
