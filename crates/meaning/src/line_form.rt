// The forms of a Module line.
//
// No enum: a field or a row may hold any other number too, and what becomes of it is fixed (`fields::field_of`, `tables::row_after`).
pub const IMPORT: u16 = 0;

pub const EXPORT_ALL: u16 = 1;

pub const EXPORT_NAMED: u16 = 2;

pub const EXPORT_FROM: u16 = 3;

// The runtime helper's import.
pub const IMPORT_HELPER: u16 = 4;
