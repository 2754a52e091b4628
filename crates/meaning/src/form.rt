// The forms of a Function or a Class.
//
// No enum: a field or a row may hold any other number too, and what becomes of it is fixed (`fields::field_of`, `tables::row_after`).
pub const DECLARATION: u16 = 0;

pub const EXPRESSION: u16 = 1;
