// Number operands as text: an optional minus and digits within bounds, and the bits or the decimal of PUSHIMMF. It follows "Text, table, image" of
// document 01, and letter e of document 02.
#![tactic(auto)]

mod decimals;

ghost use Rattle.std.specs.Prelude.{◌≡◌, ◌≤◌, ◌∷◌, eqb, length, drop};
ghost use Rattle.rules.specs.Bytes.{hash};
ghost use Rattle.rules.specs.Operands.{digit_of, all_digits, numeral, is_numeral, signs, ranged, number_of, pattern_of, float_of};

use rules::NumeralFault;

// The bases of the digits: a byte that is no digit counts for the higher one.
pub(crate) const DECIMAL: u64 = 10;

const HEX: u64 = 16;

// "more than 10 digits is 25"
const MAX_DIGITS: usize = 10;

// "`#` and eight hex digits"
const PATTERN_DIGITS: usize = 8;

// What a byte counts for as a digit: 16 where it is none.
// Stays: 16 and no None, since the definition that it promises says so (digit_of in rules/specs/Operands.antt).
#[tactic(auto, unfolding(rules::specs::Operands::digit_of))]
fn digit_of(b: u8) -> u64
    ensures { (result ≡ digit_of b) × (result ≤ 16) }
{
    match b {
        b'0'..=b'9' => (b - b'0') as u64,
        b'A'..=b'F' => (b - b'A') as u64 + DECIMAL,
        b'a'..=b'f' => (b - b'a') as u64 + DECIMAL,
        _ => HEX,
    }
}

// Whether each byte is a digit in the base.
fn all_digits(ds: &[u8], base: u64) -> bool
    ensures { result ≡ all_digits base ds.now }
{
    ds.iter().all(|b| digit_of(*b) < base)
}

// Whether a text is one or more digits in the base.
#[tactic(auto, using(crate::proofs::Laws::no_numeral, crate::proofs::Laws::some_numeral))]
pub(crate) fn is_numeral(ds: &[u8], base: u64) -> bool
    ensures { result ≡ is_numeral base ds.now }
{
    !ds.is_empty() && all_digits(ds, base)
}

// The number that the digits make: at most ten of them, so that it fits.
#[tactic(auto, using(crate::proofs::Laws::numeral_more, crate::proofs::Laws::numeral_end, crate::proofs::Laws::grows, crate::proofs::Laws::room))]
pub(crate) fn numeral_of(ds: &[u8], base: u64) -> u64
    requires { (length ds.now ≤ 10) × (base ≤ 16) }
    ensures { result ≡ numeral base 0 ds.now }
{
    let mut n = 0;
    for b in ds {
        n = n * base + digit_of(*b);
    }
    n
}

// Whether a minus stands in front, and what stands behind it.
#[tactic(auto, using(crate::proofs::Laws::signs_none, crate::proofs::Laws::signs_minus, rules::proofs::Operands::signs_other, crate::proofs::Laws::rest))]
pub(crate) fn split_sign(t: &[u8]) -> (bool, &[u8])
    ensures sign { result.0 ≡ eqb (signs t.now) 1 }
    ensures digits { result.1.now ≡ drop (signs t.now) t.now }
{
    match t {
        [b'-', ds @ ..] => (true, ds),
        _ => (false, t),
    }
}

// The number n, with a minus or without, as 32 bits: from -least to most.
#[tactic(auto, using(crate::proofs::Laws::ranged_low, crate::proofs::Laws::ranged_high, rules::proofs::Operands::ranged_least, rules::proofs::Operands::ranged_most), unfolding(rules::specs::Operands::negated))]
fn in_range(least: u32, most: u32, negative: bool, n: u64) -> Result<u32, NumeralFault>
    ensures { result ≡ ranged least most negative n }
{
    let bound = if negative { least } else { most };
    if n > bound as u64 {
        return Err(NumeralFault::OutOfRange);
    }
    let word = n as u32;
    Ok(if negative { word.wrapping_neg() } else { word })
}

// A number operand: an optional minus and digits, from -least to most.
#[tactic(auto, unfolding(rules::specs::Operands::number_of))]
pub fn number_of(t: &[u8], least: u32, most: u32) -> Result<u32, NumeralFault>
    ensures { result ≡ number_of least most t.now }
{
    let (negative, ds) = split_sign(t);
    if !is_numeral(ds, DECIMAL) {
        return Err(NumeralFault::WrongForm);
    }
    if ds.len() > MAX_DIGITS {
        return Err(NumeralFault::OutOfRange);
    }
    in_range(least, most, negative, numeral_of(ds, DECIMAL))
}

// The bits of PUSHIMMF behind its `#`: eight hex digits.
#[tactic(auto, using(crate::proofs::Laws::pattern_below), unfolding(rules::specs::Operands::pattern_of))]
fn pattern_of(ds: &[u8]) -> Result<u32, NumeralFault>
    ensures { result ≡ pattern_of (hash ∷ ds.now) }
{
    if ds.len() != PATTERN_DIGITS || !all_digits(ds, HEX) {
        return Err(NumeralFault::WrongForm);
    }
    Ok(numeral_of(ds, HEX) as u32)
}

// The operand of PUSHIMMF: bits where a `#` stands in front, else a decimal.
#[tactic(auto, using(crate::proofs::Laws::float_bits, crate::proofs::Laws::float_none, crate::proofs::Laws::float_decimal))]
pub fn float_of(t: &[u8]) -> Result<u32, NumeralFault>
    ensures { result ≡ float_of t.now }
{
    match t {
        [b'#', ds @ ..] => pattern_of(ds),
        _ => decimals::decimal_of(t),
    }
}
