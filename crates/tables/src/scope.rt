// The columns of the scope table, how many numbers a row has, and how many are lent for one: the third, the number that the scope gets in the
// written file, stands behind the rows (`new_numbers_at`).
pub const PARENT: u16 = 0;

pub const FLAGS: u16 = 1;

pub const NUMBERS: usize = 2;

pub const LENT: usize = 3;
