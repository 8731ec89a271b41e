// The verdict on a buffer.
//
// The layer promises: a buffer's verdict is that of the first rule that holds. What a chunk says is for the layer of tags below, what
// the chain and the records say for `chain`.
#![tactic(auto)]

// The verdict on a buffer.
pub mod judge;

// An image whose records and buffers are marked, and the verdicts on its buffers.
pub mod marked;
