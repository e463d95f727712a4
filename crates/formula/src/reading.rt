// The grammar, by recursion: operand = number | name | - operand | ( sum ), product = operand { ( * | / ) operand }, sum = product { ( + | - ) product }.
ghost use Rattle.std.specs.Prelude.{◌≡◌, ◌+◌};
ghost use Rattle.rules.specs.Grammar.{operand};
ghost use Rattle.formula.specs.Parts.{Start, Reads, these, side, chain_of, Closed};

use crate::parts::{Cursor, NEGATION, Reached};
use crate::scan::Next;
use crate::{parts, scan};
use rules::{FormulaRefusal, Operator, codes};

// The two levels of a chain: + and - join products, * and / join operands.
#[derive(Clone, Copy)]
pub(crate) enum Level {
    Sum,
    Product,
}

impl Level {
    // Whether an operator is one of the level's.
    fn has(self, operator: Operator) -> bool
        ensures { result ≡ these self operator }
    {
        match operator {
            Operator::Add | Operator::Subtract => matches!(self, Level::Sum),
            Operator::Multiply | Operator::Divide => matches!(self, Level::Product),
        }
    }
}

// The closing bracket behind a sum.
fn close(formula: &[u8], sum: Reached) -> Result<Reached, FormulaRefusal>
    ensures { Closed formula.now sum result }
{
    match scan::next_token(formula, sum.at) {
        Next::Closing(end) => Ok(Reached { at: end, ..sum }),
        other => Err(scan::misplaced(other)),
    }
}

// An operand: a number, a name, a minus sign and an operand, or a sum in brackets.
#[cycle(chain_operand_side)]
#[tactic(auto, using(crate::proofs::Operands::operands))]
fn operand(formula: &[u8], table: &mut [u64], from: Cursor) -> Result<Reached, FormulaRefusal>
    requires { Start table.old from }
    ensures { Reads formula.now (operand from.nesting) table.old table.new from result }
{
    match scan::next_token(formula, from.at) {
        Next::Number { value, end } => {
            parts::push(table, parts::place(codes::PUSHIMM, value), end, from)
        }
        Next::TooLarge => Err(FormulaRefusal::NumberTooLarge),
        Next::Name { cell, end } => {
            parts::push(table, parts::place(codes::PUSHOFF, cell), end, from)
        }
        Next::Sign(Operator::Subtract, end) => {
            let behind = from.inner(end)?.owing(NEGATION)?;
            let negated = operand(formula, table, behind)?;
            Ok(parts::negate(table, negated))
        }
        Next::Opening(end) => {
            let sum = chain(formula, table, from.inner(end)?, Level::Sum)?;
            close(formula, sum)
        }
        other => Err(scan::misplaced(other)),
    }
}

// One side of an operator: of a sum a product, and of a product an operand.
#[cycle(chain_operand_side)]
fn side(
    formula: &[u8],
    table: &mut [u64],
    from: Cursor,
    level: Level,
) -> Result<Reached, FormulaRefusal>
    requires { Start table.old from }
    ensures { Reads formula.now (side level (operand from.nesting)) table.old table.new from result }
{
    match level {
        Level::Sum => chain(formula, table, from, Level::Product),
        Level::Product => operand(formula, table, from),
    }
}

// A sum, or else a product: all that its operators join, from the left.
#[cycle(chain_operand_side)]
#[tactic(auto, using(crate::proofs::Chains::turnings))]
pub(crate) fn chain(
    formula: &[u8],
    table: &mut [u64],
    from: Cursor,
    level: Level,
) -> Result<Reached, FormulaRefusal>
    requires { Start table.old from }
    ensures { Reads formula.now (chain_of level (operand from.nesting)) table.old table.new from result }
{
    let mut left = side(formula, table, from, level)?;
    while let Next::Sign(operator, end) = scan::next_token(formula, left.at)
        && level.has(operator)
    {
        let behind = Cursor {
            at: end,
            written: left.written,
            ..from
        };
        let right = side(formula, table, behind.owing(1)?, level)?;
        left = parts::join(table, operator, left, right);
    }
    Ok(left)
}
