// Bitwise operations: BITAND, BITOR, BITNAND, BITNOR, BITXOR and BITNOT, on all 32 bits of a word.
ghost use Rattle.std.specs.Prelude.{◌≡◌, bit_and, bit_or, bit_xor};
ghost use Rattle.rules.specs.Words.{bit_not, bit_nand, bit_nor};

// BITAND: the bits that both have.
pub fn bit_and(b: u32, t: u32) -> u32
    ensures { result ≡ bit_and b t }
{
    b & t
}

// BITOR: the bits that one of them has.
pub fn bit_or(b: u32, t: u32) -> u32
    ensures { result ≡ bit_or b t }
{
    b | t
}

// BITNAND: BITAND, then BITNOT.
pub fn bit_nand(b: u32, t: u32) -> u32
    ensures { result ≡ bit_nand b t }
{
    !(b & t)
}

// BITNOR: BITOR, then BITNOT.
pub fn bit_nor(b: u32, t: u32) -> u32
    ensures { result ≡ bit_nor b t }
{
    !(b | t)
}

// BITXOR: the bits that just one has.
pub fn bit_xor(b: u32, t: u32) -> u32
    ensures { result ≡ bit_xor b t }
{
    b ^ t
}

// BITNOT: all 32 bits turned over.
pub fn bit_not(t: u32) -> u32
    ensures { result ≡ bit_not t }
{
    !t
}
