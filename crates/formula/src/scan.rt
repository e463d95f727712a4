// The scanner of a formula: what stands next from a place on. Tokens are single bytes but for runs of digits, and spaces may stand before each.
#![tactic(auto, using(std::proofs::lemmas::Grind::common_steps, crate::proofs::Scanned::above_grown), unfolding(rules::specs::Grammar::tokens, rules::specs::Grammar::before, rules::specs::Grammar::digit, rules::specs::Grammar::sorted))]

ghost use Rattle.std.specs.Prelude.{◌≡◌, ◌≢◌, ◌<◌, length, slice_index};
ghost use Rattle.formula.specs.Scans.{tokens_from, number_from, Stands, misplaced_by};

use rules::{FormulaRefusal, Operator, sizes};

// What stands next: a token, with where it ends, a number that is too large, a byte that no formula has, or the formula's end.
#[derive(Clone, Copy)]
pub(crate) enum Next {
    Number { value: usize, end: usize },
    TooLarge,
    Name { cell: usize, end: usize },
    Sign(Operator, usize),
    Opening(usize),
    Closing(usize),
    Forbidden,
    End,
}

// The number whose digits start at the place. One that is too large is not read on.
fn number(formula: &[u8], start: usize) -> Next
    ensures { Stands formula.now (number_from 0 formula.now start) result }
{
    let mut value = 0;
    // Stays: by place, since the place is told where the digits end, and the digits are worked out up to there.
    for end in start..formula.len() {
        let b = formula[end];
        if !b.is_ascii_digit() {
            return Next::Number { value, end };
        }
        value = value * 10 + usize::from(b - b'0');
        if value > sizes::MAX_INTEGER {
            return Next::TooLarge;
        }
    }
    let end = formula.len();
    Next::Number { value, end }
}

// The token that starts at the place, with no space before it.
fn token_at(formula: &[u8], start: usize) -> Next
    requires within { start < length formula.now }
    requires token { slice_index formula.now start ≢ 32 }
    ensures { Stands formula.now (tokens_from formula.now start) result }
{
    let end = start + 1;
    match formula[start] {
        b'0'..=b'9' => number(formula, start),
        b'+' => Next::Sign(Operator::Add, end),
        b'-' => Next::Sign(Operator::Subtract, end),
        b'*' => Next::Sign(Operator::Multiply, end),
        b'/' => Next::Sign(Operator::Divide, end),
        b'(' => Next::Opening(end),
        b')' => Next::Closing(end),
        letter @ b'a'..=b'h' => Next::Name {
            cell: usize::from(letter - b'a'),
            end,
        },
        _ => Next::Forbidden,
    }
}

// What stands next from the place on.
pub(crate) fn next_token(formula: &[u8], at: usize) -> Next
    ensures { Stands formula.now (tokens_from formula.now at) result }
{
    // Stays: a loop, since with `find` three goals stay open that the loop does not have (tried).
    for i in at..formula.len() {
        if formula[i] != b' ' {
            return token_at(formula, i);
        }
    }
    Next::End
}

// The refusal of what has no place here.
pub(crate) fn misplaced(next: Next) -> FormulaRefusal
    ensures { result ≡ misplaced_by next }
{
    match next {
        Next::Forbidden => FormulaRefusal::FormulaByte,
        _ => FormulaRefusal::CannotGoOn,
    }
}
