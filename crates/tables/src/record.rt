// The columns of the record table, and how many numbers a row has.
pub const TAG: u16 = 0;

pub const A: u16 = 1;

pub const B: u16 = 2;

pub const C: u16 = 3;

pub const N: u16 = 4;

pub const UP: u16 = 5;

pub const LEFT: u16 = 6;

pub const NUMBERS: usize = 7;
