// Logic on words, of which a nonzero one is true: AND, OR, NAND, NOR, XOR and NOT. Each answer is 0 or 1.
ghost use Rattle.std.specs.Prelude.{◌≡◌, not, ◌&&◌, ◌||◌};
ghost use Rattle.rules.specs.Words.{bit, holds, logic, nand, nor, unlike};

// AND: whether both are true.
pub fn and(b: u32, t: u32) -> u32
    ensures { result ≡ logic ◌&&◌ b t }
{
    ((b != 0) & (t != 0)) as u32
}

// OR: whether one of them is true.
pub fn or(b: u32, t: u32) -> u32
    ensures { result ≡ logic ◌||◌ b t }
{
    ((b != 0) | (t != 0)) as u32
}

// NAND: whether not both are true.
pub fn nand(b: u32, t: u32) -> u32
    ensures { result ≡ logic nand b t }
{
    !((b != 0) & (t != 0)) as u32
}

// NOR: whether neither is true.
pub fn nor(b: u32, t: u32) -> u32
    ensures { result ≡ logic nor b t }
{
    !((b != 0) | (t != 0)) as u32
}

// XOR: whether just one is true.
pub fn xor(b: u32, t: u32) -> u32
    ensures { result ≡ logic unlike b t }
{
    ((b != 0) ^ (t != 0)) as u32
}

// NOT: whether it is not true.
pub fn not(t: u32) -> u32
    ensures { result ≡ bit (not (holds t)) }
{
    !(t != 0) as u32
}
