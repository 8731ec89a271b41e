// The calls on the bytes that a client has of its buffer: store and show.
//
// The layer promises: each call answers and writes what docs/RULES.md says, or refuses and changes no byte. It touches one chunk
// and reads one record.
#![tactic(auto)]

// Store into a buffer.
pub mod store;

// Show a client's bytes.
pub mod show;
