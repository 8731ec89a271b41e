// The findings of an image as numbers, and the chain as numbers.
//
// The layer promises: three numbers for each buffer and three for the chain, of what the layer below finds; an image is opened by the
// tests 1, 2 and 3, and refused where they refuse it.
#![tactic(auto)]

// Three numbers for each buffer.
pub mod table;

// The same of an image with a log, and three numbers for the chain.
pub mod numbers;
