// The parts of a Try besides its Block.
//
// No enum: a field or a row may hold any other number too, and what becomes of it is fixed (`fields::field_of`, `tables::row_after`).
pub const HANDLER: u16 = 1;

pub const FINALIZER: u16 = 2;

pub const BOTH: u16 = 3;
