// One chunk, given as a slice of buffer size + 16 bytes, and nothing about where it stands.
//
// The layer promises: a chunk is written whole, free or granted; a chunk is judged by docs/RULES.md's rules for its pattern. It
// sees no area, no index and no chain, so of the verdicts it gives 21, 25 to 28 and 30, free, whole and allocated; a layer above
// gives the rest.
#![tactic(auto)]

// The bytes of a chunk, free and granted.
pub mod chunk;

// The header of a sized grant.
pub mod header;

// The verdict on one chunk.
pub mod judge;
