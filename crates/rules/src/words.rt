// Words, the 32 bits of a cell, by their bits: "Integers are two's complement".

// -2^31, the lowest number: the words from it on stand for numbers below 0.
pub const LOWEST: u32 = 0x8000_0000;

// 2^31 - 1, the highest number.
pub const HIGHEST: u32 = 0x7fff_ffff;

pub const MINUS_ONE: u32 = 0xffff_ffff;

// "modulo 2^32"
pub const MODULUS: u64 = 0x1_0000_0000;
