// The names that 01 gives a number: `babelHelpers`, `_`, `default`, `_default`, `using_ctx`.
//
// No enum: all other names are numbers of the file's own.
pub const BABEL_HELPERS: u16 = 1;

pub const UNDERSCORE: u16 = 2;

pub const DEFAULT: u16 = 3;

pub const DEFAULT_VALUE: u16 = 4;

pub const USING_CTX: u16 = 5;
