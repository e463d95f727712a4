// Tests of words: CMP, GREATER, LESS, ISPOS and ISNEG. An answer that is pushed is 0 or 1.
ghost use Rattle.std.specs.Prelude.{◌≡◌};
ghost use Rattle.rules.specs.Words.{bit, holds, less, sense, ordered};

use crate::integers::signed;
use rules::words;

// The result of a test, as a word: 0 or 1.
pub fn bit(test: bool) -> u32
    ensures { result ≡ bit test }
{
    test as u32
}

// Whether a word is true: "Nonzero is true."
pub fn holds(b: u32) -> bool
    ensures { result ≡ holds b }
{
    b != 0
}

// Whether the number of b is below that of t.
fn below(b: u32, t: u32) -> bool
    ensures { result ≡ less b t }
{
    signed(b) < signed(t)
}

// LESS: Vb < Vt.
pub fn less(b: u32, t: u32) -> u32
    ensures { result ≡ bit (less b t) }
{
    below(b, t) as u32
}

// GREATER: Vb > Vt.
pub fn greater(b: u32, t: u32) -> u32
    ensures { result ≡ bit (less t b) }
{
    below(t, b) as u32
}

// The answer of CMP and CMPF, from the tests Vb < Vt and Vb > Vt: 1 if Vb < Vt, 0 if equal, -1 if Vb > Vt.
pub fn sense(less: bool, greater: bool) -> u32
    ensures { result ≡ sense less greater }
{
    match (less, greater) {
        (true, _) => 1,
        (false, true) => words::MINUS_ONE,
        (false, false) => 0,
    }
}

// CMP: how the numbers of b and t are ordered.
pub fn ordered(b: u32, t: u32) -> u32
    ensures { result ≡ ordered b t }
{
    sense(below(b, t), below(t, b))
}

// ISPOS: Vt > 0.
pub fn is_pos(t: u32) -> u32
    ensures { result ≡ bit (less 0 t) }
{
    below(0, t) as u32
}

// ISNEG: Vt < 0.
pub fn is_neg(t: u32) -> u32
    ensures { result ≡ bit (less t 0) }
{
    below(t, 0) as u32
}
