// What a chunk's words can say, the tag and the size code; and all that is told by a number: verdicts, refusals, a chain's ending.
//
// The layer promises: a tag made of a record's address and a state has that state's pattern; a size code gives its size back;
// each verdict, refusal and ending has docs/RULES.md's number and value.
#![tactic(auto)]

// The verdicts and their numbers.
pub mod verdict;

// Why a call is refused.
pub mod refusal;

// How a chain ends.
pub mod ending;

// The tag words T0 and T1.
pub mod tag;

// The size code in R1.
pub mod size_code;

// How an image writes its words and its grants.
pub mod format;
