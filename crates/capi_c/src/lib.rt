// The exports for C of `capi`: each calls the function of its name there, and promises the same. What the number that a function
// returns says, and what the functions do, stands there.
#![tactic(auto)]

// Lengths of the areas, inspect, survey, latest transaction and report.
mod reader;

// The heap's calls.
mod calls;
