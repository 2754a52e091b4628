// The flags of a symbol.
//
// Numbers that add up, and no enum: a row may hold any other number too, and what becomes of it is fixed (`tables::row_after`).
pub const FUNCTION_SCOPED: u16 = 1;

pub const BLOCK_SCOPED: u16 = 2;

pub const CONST: u16 = 4;

pub const CLASS: u16 = 8;

pub const CATCH: u16 = 16;

pub const IMPORT: u16 = 32;

pub const FUNCTION: u16 = 64;
