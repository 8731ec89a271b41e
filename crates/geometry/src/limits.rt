// The limits that the numbers of a sheet keep, as far as other code asks for them.

// No image has more buffers.
pub const MOST_BUFFERS: usize = 512;

// The flags of every sheet.
pub const FLAGS: u32 = 0x020f;
