// The binary32 nearest to a whole number over a whole number above 0, ties to even: decimals and ITOF both round here. With 32 bits above and below, a
// value other than zero is far from both ends of binary32, so that it always has a leading digit and is never an infinity.
ghost use Rattle.std.specs.Prelude.{◌≡◌, ◌+◌, ◌*◌, ◌^◌, ◌<◌, ◌≤◌, Bool};
ghost use Rattle.std.specs.Int.Count.{count_leading_zeros};
ghost use Rattle.std.specs.Float.Ieee.Nearest.{closest};
ghost use Rattle.rules.specs.Floats.{nearest_f};
ghost use Rattle.nearest.specs.Nearest.{sign_bit, Rounded};

use crate::{EXPONENT_WEIGHT, SIGN};

// 2^23 and 2^24: a value is at least so many steps of its own size, and fewer than twice as many.
const STEPS: u64 = 0x80_0000;

const TWICE_STEPS: u64 = 0x100_0000;

// The power of two that a step is of smallest values, where 2^24 steps are 1: 149 - 24. What a and c are raised by moves it.
const POWER: u32 = 125;

// x raised by a power of two, so that its highest bit is the last of 32.
#[tactic(auto, using(nearest::proofs::Placed::raised_lo, nearest::proofs::Placed::raised_hi))]
fn raised(x: u32) -> u64
    requires { 0 < x }
    ensures { (result ≡ x * 2 ^ count_leading_zeros 32 x) × ((2 ^ 31 ≤ result) × (result < 2 ^ 32)) }
{
    (x as u64) << u32::leading_zeros(x)
}

// The whole number nearest to n / u, of two the even one.
fn closest(n: u64, u: u64) -> u64
    requires { (0 < u) × ((u < 2 ^ 32) × (n < 2 ^ 56)) }
    ensures { result ≡ closest n u }
{
    let whole = n / u;
    let twice = n % u * 2;
    // Stays: a match on the order of the two has the same three ways, so is no plainer, and takes six machine instructions more for each rounding.
    if twice < u {
        return whole;
    }
    if twice > u {
        return whole + 1;
    }
    whole + whole % 2
}

// The bits of that many steps of a power of two. The leading digit adds one to the exponent.
fn placed(power: u32, steps: u64) -> u32
    requires { (power < 253) × (steps ≤ 2 ^ 24) }
    ensures { (result ≡ power * 2 ^ 23 + steps) × (result < 2 ^ 31) }
{
    power * EXPONENT_WEIGHT + (steps as u32)
}

// The bits of a / c without its sign.
#[tactic(auto, using(nearest::proofs::Closest::closest_most, nearest::proofs::Placed::leading_some))]
fn magnitude_of(a: u32, c: u32) -> u32
    requires { (0 < a) × (0 < c) }
    ensures { (result < 2 ^ 31) × ((s : Bool) → sign_bit s + result ≡ nearest_f s a c) }
{
    let n = raised(a);
    let u = raised(c);
    let power = POWER + u32::leading_zeros(c) - u32::leading_zeros(a);
    if n < u {
        return placed(power, closest(n * TWICE_STEPS, u));
    }
    placed(power + 1, closest(n * STEPS, u))
}

fn sign_of(minus: bool) -> u32
    ensures { result ≡ sign_bit minus }
{
    if minus { SIGN } else { 0 }
}

// The bits of a / c, with a minus or without, rounded once: the rules' value, which is the only one that is nearest. Over 0 there is none, and the answer
// is 0.
// Stays: 0 and no None there, since that is what its clause promises, and that of a public function may not change.
pub fn nearest_f(minus: bool, a: u32, c: u32) -> u32
    ensures { (0 < c → (result ≡ nearest_f minus a c) × Rounded minus a c result) × (c ≡ 0 → result ≡ 0) }
{
    if c == 0 {
        return 0;
    }
    if a == 0 {
        return sign_of(minus);
    }
    sign_of(minus) + magnitude_of(a, c)
}
