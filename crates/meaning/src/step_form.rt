// The forms of a Step: `.e = _`, `.d()`, awaited `.d()`.
//
// No enum: a field or a row may hold any other number too, and what becomes of it is fixed (`fields::field_of`, `tables::row_after`).
pub const KEEP_ERROR: u16 = 0;

pub const DISPOSE: u16 = 1;

pub const AWAIT_DISPOSE: u16 = 2;
