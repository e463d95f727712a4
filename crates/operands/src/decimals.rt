// Decimals as text: an optional minus and digits with a point among them. It follows letter e of document 02.
ghost use Rattle.std.specs.Prelude.{◌≡◌, true, false, ◌+◌, ◌^◌, ◌≤◌, length, MatchOption};
ghost use Rattle.rules.specs.Floats.{nearest_f};
ghost use Rattle.rules.specs.Operands.{numeral, is_numeral, before_point, after_point, is_decimal, decimal_of};

use crate::{DECIMAL, is_numeral, numeral_of, split_sign};
use floats::rounding::nearest_f;
use rules::NumeralFault;

// "two to nine digits in all"
const MAX_DECIMAL_DIGITS: usize = 9;

// What stands before the first point, and what after it: nothing where there is none, and then the text is no decimal.
fn sides(ds: &[u8]) -> Option<(&[u8], &[u8])>
    ensures { MatchOption result (is_decimal ds.now ≡ false) (λ s. (s.0.now ≡ before_point ds.now) × (s.1.now ≡ after_point ds.now)) }
{
    let p = ds.iter().position(|b| *b == b'.')?;
    Some((&ds[..p], &ds[p + 1..]))
}

// The bits nearest a decimal of these digits before its point and after it: all of them as one number, over ten for each digit after the point.
fn nearest_decimal(minus: bool, whole: &[u8], after: &[u8]) -> u32
    requires whole_digits { is_numeral 10 whole.now ≡ true }
    requires after_digits { is_numeral 10 after.now ≡ true }
    requires few { length whole.now + length after.now ≤ 9 }
    ensures { result ≡ nearest_f minus (numeral 10 (numeral 10 0 whole.now) after.now) (10 ^ length after.now) }
{
    let scale = DECIMAL.pow(after.len() as u32);
    let n = numeral_of(whole, DECIMAL) * scale + numeral_of(after, DECIMAL);
    nearest_f(minus, n as u32, scale as u32)
}

// A decimal operand of PUSHIMMF: an optional minus, and two to nine digits with a point among them.
#[tactic(auto, unfolding(rules::specs::Operands::decimal_of, rules::specs::Operands::is_decimal, rules::specs::Operands::digits_in, rules::specs::Operands::nearest_decimal))]
pub(crate) fn decimal_of(t: &[u8]) -> Result<u32, NumeralFault>
    ensures { result ≡ decimal_of t.now }
{
    let (negative, ds) = split_sign(t);
    let Some((whole, after)) = sides(ds) else {
        return Err(NumeralFault::WrongForm);
    };
    if !is_numeral(whole, DECIMAL) || !is_numeral(after, DECIMAL) {
        return Err(NumeralFault::WrongForm);
    }
    if whole.len() + after.len() > MAX_DECIMAL_DIGITS {
        return Err(NumeralFault::OutOfRange);
    }
    Ok(nearest_decimal(negative, whole, after))
}
