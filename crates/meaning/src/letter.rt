// The letters of a Call.
//
// No enum: a field or a row may hold any other number too, and what becomes of it is fixed (`fields::field_of`, `tables::row_after`).
pub const U: u16 = 0;

pub const A: u16 = 1;
