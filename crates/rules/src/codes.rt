// The codes of the instructions: "Codes in order from 0", and those of request e.
// Stays: numbers and no enum, since any number may stand in lent memory, and the definitions speak of numbers.
pub const STOP: usize = 0;

pub const PUSHIMM: usize = 1;

pub const PUSHIMMF: usize = 2;

pub const DUP: usize = 3;

pub const SWAP: usize = 4;

pub const ADD: usize = 5;

pub const SUB: usize = 6;

pub const TIMES: usize = 7;

pub const DIV: usize = 8;

pub const MOD: usize = 9;

pub const ADDF: usize = 10;

pub const SUBF: usize = 11;

pub const TIMESF: usize = 12;

pub const DIVF: usize = 13;

pub const AND: usize = 14;

pub const OR: usize = 15;

pub const NAND: usize = 16;

pub const NOR: usize = 17;

pub const XOR: usize = 18;

pub const NOT: usize = 19;

pub const BITAND: usize = 20;

pub const BITOR: usize = 21;

pub const BITNAND: usize = 22;

pub const BITNOR: usize = 23;

pub const BITXOR: usize = 24;

pub const BITNOT: usize = 25;

pub const CMP: usize = 26;

pub const CMPF: usize = 27;

pub const GREATER: usize = 28;

pub const LESS: usize = 29;

pub const EQUAL: usize = 30;

pub const ISNIL: usize = 31;

pub const ISPOS: usize = 32;

pub const ISNEG: usize = 33;

pub const PUSHSP: usize = 34;

pub const POPSP: usize = 35;

pub const PUSHFBR: usize = 36;

pub const POPFBR: usize = 37;

pub const LINK: usize = 38;

pub const ADDSP: usize = 39;

pub const PUSHIND: usize = 40;

pub const STOREIND: usize = 41;

pub const PUSHOFF: usize = 42;

pub const STOREOFF: usize = 43;

pub const JUMP: usize = 44;

pub const JUMPC: usize = 45;

pub const JUMPIND: usize = 46;

pub const JSR: usize = 47;

pub const JSRIND: usize = 48;

pub const PUSHIMMPA: usize = 49;

pub const ITOF: usize = 50;

pub const FTOI: usize = 51;

pub const PUSHIMMCH: usize = 52;

pub const WRITECH: usize = 53;

// How many there are: a code is below it.
pub const COUNT: usize = 54;
