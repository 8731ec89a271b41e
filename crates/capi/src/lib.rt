// What C calls, through the exports of `capi_c`: numbers and slices in, one number out. Every function returns a u64: bits 0 to 7
// are the refusal's number (0: accepted), bits 8 to 15 its detail, bits 32 to 63 the value; bits 16 to 31 are 0, and a refusal's
// value is 0. All decisions are in the layers below.
#![tactic(auto)]

// The number returned.
mod answer;

// Lengths of the areas, inspect, survey, latest transaction and report.
pub mod reader;

// The heap's calls.
pub mod calls;
