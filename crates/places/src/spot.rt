// A buffer of a sheet, and its own record.
use geometry::sheet::Sheet;

// Buffer `buffer` of a sheet and record `own`, the own record of that buffer.
#[derive(Clone, Copy, Debug, PartialEq, Eq)]
pub struct Spot {
    pub sheet: Sheet,
    pub buffer: usize,
    pub own: usize,
}
