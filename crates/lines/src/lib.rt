// The lines of a report and of a refusal, put into an output.
//
// The layer promises: numbers are decimals without leading zeros; each piece of a report is put whole behind the piece before
// it, where the output goes so far, and no piece is longer than stated; a refusal's line is written whole from the output's
// start on, and output past it stays, or the output is shorter than the exact need and stays as it was.
#![tactic(auto)]

// The pieces of the text, and the output that they are put into.
pub mod text;
