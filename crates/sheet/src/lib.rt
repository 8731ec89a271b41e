// The sheet of an image, 48 bytes of tagged fields, and the opening of an image.
//
// The layer promises: the format of the sheet stands here and nowhere else; every call opens the image by the same tests, 1, 2 and
// 3, and refuses what they refuse.
#![tactic(auto)]

// The fields: tags, lengths and bodies.
pub mod fields;

// The opening of an image.
pub mod opening;

// The areas as they are lent.
pub mod lent;

// An image that is open.
pub mod open_image;
