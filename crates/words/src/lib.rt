// Numbers in bytes; nothing here knows of a heap.
//
// The crate promises: a number read is the number of the bytes at its offset in an order; a write changes the bytes of its
// number and no others; an age is a difference modulo 2^32. Which byte comes first stands in `turned` of specs/Word.antt, and
// in the code in the methods of `Order`, by std's conversions. The other half of the layer of words, runs of bytes, is the crate
// `runs`.
#![tactic(auto)]

// Numbers of one, two, four and eight bytes.
pub mod word;

// The age of a stamp.
pub mod age;
