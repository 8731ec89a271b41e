// Runs of bytes; nothing here knows of a heap.
//
// The crate promises: a run is filled with a word again and again, compared with one up to the first byte that differs, or copied
// to its place. It belongs to the layer of words, and stands apart since a run's loops are the dearest to check there.
#![tactic(auto)]

// Eights of bytes that are written or compared at once.
mod eight;

// Runs of a repeated word.
pub mod run;
