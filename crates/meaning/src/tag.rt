// The tags of 01's fields.
//
// No enum: a field or a row may hold any other number too, and what becomes of it is fixed (`fields::field_of`, `tables::row_after`).
pub const PROGRAM: u16 = 1;

pub const BLOCK: u16 = 2;

pub const PLAIN: u16 = 3;

pub const LABEL: u16 = 4;

pub const DECLARATION: u16 = 5;

pub const DECLARATOR: u16 = 6;

pub const FOR: u16 = 7;

pub const FOR_OF: u16 = 8;

pub const SWITCH: u16 = 9;

pub const CASE: u16 = 10;

pub const TRY: u16 = 11;

pub const CATCH: u16 = 12;

pub const FUNCTION: u16 = 13;

pub const BODY: u16 = 14;

pub const CLASS: u16 = 15;

pub const STATIC_BLOCK: u16 = 16;

pub const MODULE_LINE: u16 = 17;

pub const DEFAULT_EXPORT: u16 = 18;

pub const EXPORTED_DECLARATION: u16 = 19;

pub const SPECIFIER: u16 = 20;

pub const EXPRESSION: u16 = 24;

pub const READ: u16 = 25;

pub const NAME: u16 = 26;

pub const CALL: u16 = 27;

pub const LOAD: u16 = 28;

pub const STEP: u16 = 29;

pub const SETTINGS: u16 = 40;

pub const SCOPE: u16 = 41;

pub const SYMBOL: u16 = 42;
