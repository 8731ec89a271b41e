// The findings of an image.
//
// The layer promises: an image is opened by the tests 1, 2 and 3, and refused where they refuse it; each finding is the verdict
// of the layer below.
#![tactic(auto)]

// The findings of all buffers.
pub mod inspect;
