// The report of one cache.
//
// The layer promises: a report is, byte for byte, docs/RULES.md's text of the verdicts, of the chain and of the count of fault
// lines. It keeps no table: a few buffers are judged at a time, where their lines are put. How a buffer is judged, and how a line
// is worded, is for the layers below.
#![tactic(auto)]

// The whole text of an image.
mod whole;

// The call: the report of an image.
pub mod answer;
