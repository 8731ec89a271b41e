// The exports for C of `timed`: each calls the function of its name there, and promises the same.
#![tactic(auto)]

// Runs of a repeated word, the highest of its bytes first, with numbers for enums.
mod run;
