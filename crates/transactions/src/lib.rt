// The latest transaction of a buffer.
//
// The layer promises: of the record and the log's rows that name it, the one of smallest age, with docs/RULES.md's ties.
#![tactic(auto)]

// The latest transaction of a buffer.
pub mod latest;
