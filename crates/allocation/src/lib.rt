// Allocate: the buffer at the head of the chain is granted.
//
// The layer promises: the call answers and writes what docs/RULES.md says, or refuses and changes no byte. It touches one chunk
// and one record.
#![tactic(auto)]

// Allocate a buffer.
pub mod allocate;
