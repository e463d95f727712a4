// The tags of a cell: "Tags: INT 0, FLOAT 1, MA (memory address) 2, PA (program address) 3."; "tag CH (4)" (02 h).
// Stays: numbers and no enum, since any number may stand in lent memory, and the definitions speak of numbers.
pub const INT: u8 = 0;

pub const FLOAT: u8 = 1;

pub const MA: u8 = 2;

pub const PA: u8 = 3;

pub const CH: u8 = 4;
