// The flags of a scope.
//
// Numbers that add up, and no enum: a row may hold any other number too, and what becomes of it is fixed (`tables::row_after`).
pub const STRICT: u16 = 1;

pub const CATCH: u16 = 2;

pub const STATIC_BLOCK: u16 = 4;

pub const FUNCTION: u16 = 8;

pub const TOP: u16 = 16;
