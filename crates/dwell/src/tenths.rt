// The tenths of a second that a cell's bits stand for, held between the shortest and the longest dwell: those of an INT, and those of a FLOAT, which are
// found by its bits, with no operation of floats.
ghost use Rattle.std.specs.Prelude.{◌≡◌};
ghost use Rattle.rules.specs.Words.{signed};
ghost use Rattle.rules.specs.Dwell.{held, held_seconds};

use floats::conversions::WHOLE;
use floats::{EXPONENT_WEIGHT, SIGN};

// "held between 10 and 300 tenths"
const SHORTEST: u32 = 10;

const LONGEST: u32 = 300;

const TENTHS_OF_A_SECOND: u32 = 10;

// The bits of 1 second and of 30 seconds, which are 10 and 300 tenths.
const ONE_SECOND: u32 = 0x3f80_0000;

const THIRTY_SECONDS: u32 = 0x41f0_0000;

// The tenths of an INT: below 0 it is shorter than the shortest dwell too.
#[tactic(auto, using(crate::proofs::Cases::int_cases))]
pub(crate) fn of_int(b: u32) -> u32
    ensures { result ≡ held (signed b) }
{
    b.cast_signed()
        .clamp(SHORTEST as i32, LONGEST as i32)
        .cast_unsigned()
}

// The tenths of a FLOAT that is no NaN: below 1 second, with a minus too, the shortest dwell; from 30 on, infinity too, the longest; between them ten times
// its digits, less those behind the point.
#[tactic(auto, using(crate::proofs::Cases::seconds_cases))]
pub(crate) fn of_seconds(b: u32) -> u32
    ensures { result ≡ held_seconds b }
{
    if b < ONE_SECOND || b >= SIGN {
        return SHORTEST;
    }
    if b >= THIRTY_SECONDS {
        return LONGEST;
    }
    let exponent = b / EXPONENT_WEIGHT;
    let digits = EXPONENT_WEIGHT + b % EXPONENT_WEIGHT;
    TENTHS_OF_A_SECOND * digits >> (WHOLE - exponent)
}
