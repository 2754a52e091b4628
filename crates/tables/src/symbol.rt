// The columns of the symbol table, how many numbers a row has, and how many are lent for one: the sixth, its count, stands behind the rows
// (`counts_at`). READ_SCOPE is the scope that was read, whatever has moved since.
pub const NAME: u16 = 0;

pub const FLAGS: u16 = 1;

pub const SCOPE: u16 = 2;

pub const MADE: u16 = 3;

pub const READ_SCOPE: u16 = 4;

pub const NUMBERS: usize = 5;

pub const LENT: usize = 6;
