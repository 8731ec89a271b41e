// The chain, each buffer's own record, how often a buffer is listed, and the marks that keep all three for the judging.
//
// The layer promises: the chain is what docs/RULES.md's rule makes of the records; a buffer's own record is the one that names it; a
// magazine list is counted word by word, and refused where a word is no buffer's. All that is kept between the passes is one lent byte
// for each of n places.
#![tactic(auto)]

// The chain of free records, walked over the marks.
pub mod walk;

// A buffer's own record.
pub mod pairing;

// The marks.
pub mod marks;
