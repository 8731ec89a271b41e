// What the benchmark times by itself: the fill and the fill test of whole slices, and beside the test the form that takes one byte
// after the other. `timed_c` exports them; no other crate relies on this one.
#![tactic(auto)]

// Runs of a repeated word, the highest of its bytes first, with numbers for enums.
pub mod run;
