// The numbers of a sheet: where the areas are and how they are cut, and the limits that they keep.
//
// The layer promises: where a buffer or a record stands, and what stands at an address, is told by the sheet's numbers. Whether they
// keep their limits is tested in `lawful`.
#![tactic(auto)]

// The numbers, and what they say of addresses and places.
pub mod sheet;

// The limits that the numbers keep.
pub mod limits;
