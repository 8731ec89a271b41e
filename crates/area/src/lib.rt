// What stands in the areas of an image: places at addresses, and the format of a record.
//
// The layer promises: a word is the address of a place, a record's or a buffer's, or it is not; a record's words are read through
// an address window; a record is written whole, or its next word, or its stamp.
#![tactic(auto)]

// Which place of an area an address is.
pub mod place;

// The format of a record.
pub mod record;
