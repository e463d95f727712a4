// What is read of a formula, and its code, written as it is read: where reading stands, and the code of a leaf, of unary minus and of an operator.
#![tactic(auto, using(crate::proofs::Writes::writes))]

ghost use Rattle.std.specs.Prelude.{◌≡◌, length};
ghost use Prim.Native.Nat.{ℕ, ◌+◌, ◌≤◌, ◌<◌, ◌^◌, max};
ghost use Rattle.rules.specs.Lists.{splice};
ghost use Rattle.rules.specs.Table.{place_of};
ghost use Rattle.rules.specs.Translate.{operation, negation};
ghost use Rattle.formula.specs.Parts.{Start, Leaves, Inner, Owing, Pushed, negated_to, joined_to, with_operation};

use program::table::CODE_WEIGHT;
use rules::{FormulaRefusal, Operator, codes, sizes, words};

// Where reading stands: the next byte, how many instructions are written, how many were read and are not written yet (STOP, those of open minus signs, operators
// whose right side is being read), and how many signs and brackets may still be opened.
#[derive(Clone, Copy)]
pub(crate) struct Cursor {
    pub at: usize,
    pub written: usize,
    pub owed: usize,
    pub nesting: usize,
}

impl Cursor {
    // Inside a sign or a bracket that ends at the place: one less may be opened there.
    pub(crate) fn inner(self, end: usize) -> Result<Cursor, FormulaRefusal>
        ensures { Inner self end result }
    {
        if self.nesting == 0 {
            return Err(FormulaRefusal::NestedTooDeep);
        }
        Ok(Cursor {
            at: end,
            nesting: self.nesting - 1,
            ..self
        })
    }

    // With so many instructions more owed, where that isn't too many.
    pub(crate) fn owing(self, count: usize) -> Result<Cursor, FormulaRefusal>
        requires { self.written + self.owed + count < 2 ^ 64 }
        ensures { Owing self count result }
    {
        if self.written + self.owed + count > sizes::MAX_PROGRAM {
            return Err(FormulaRefusal::CostTooHigh);
        }
        Ok(Cursor {
            owed: self.owed + count,
            ..self
        })
    }
}

// Where reading has come to: the next byte, how many instructions are written, and how many values the code of the part that was read last holds at most.
#[derive(Clone, Copy)]
pub(crate) struct Reached {
    pub at: usize,
    pub written: usize,
    pub depth: usize,
}

// What unary minus costs: PUSHIMM -1 and TIMES.
pub(crate) const NEGATION: usize = 2;

// The table's place of an instruction.
pub(crate) fn place(code: usize, operand: usize) -> u64
    requires { (code < 64) × (operand < 2 ^ 32) }
    ensures { result ≡ place_of code operand }
{
    (code as u64) * CODE_WEIGHT + (operand as u64)
}

// That of an operator's instruction.
fn operation(operator: Operator) -> u64
    ensures { result ≡ operation operator }
{
    let code = match operator {
        Operator::Add => codes::ADD,
        Operator::Subtract => codes::SUB,
        Operator::Multiply => codes::TIMES,
        Operator::Divide => codes::DIV,
    };
    place(code, 0)
}

// A number or a name, whose token ends at `end`: one instruction, where it is not one too many with those that are owed. It never is, since before an operand the
// cost so far is odd; the rule asks it of every token.
pub(crate) fn push(
    table: &mut [u64],
    place: u64,
    end: usize,
    from: Cursor,
) -> Result<Reached, FormulaRefusal>
    requires { Start table.old from }
    ensures { Pushed table.old table.new place end from result }
{
    if from.written + from.owed >= sizes::MAX_PROGRAM {
        return Err(FormulaRefusal::CostTooHigh);
    }
    table[from.written] = place;
    Ok(Reached {
        at: end,
        written: from.written + 1,
        depth: 1,
    })
}

// Unary minus behind its operand: PUSHIMM -1, TIMES.
pub(crate) fn negate(table: &mut [u64], operand: Reached) -> Reached
    requires { Leaves table.old operand 2 }
    ensures { (result ≡ negated_to operand) × (table.new ≡ splice table.old operand.written negation) }
{
    let Reached { at, written, depth } = operand;
    table[written] = place(codes::PUSHIMM, words::MINUS_ONE as usize);
    table[written + 1] = operation(Operator::Multiply);
    Reached {
        at,
        written: written + NEGATION,
        depth: depth.max(2),
    }
}

// An operator behind its right side: while that one is worked out the left one is held.
pub(crate) fn join(table: &mut [u64], operator: Operator, left: Reached, right: Reached) -> Reached
    requires { Leaves table.old right 1 }
    ensures { (result ≡ joined_to left right) × (table.new ≡ with_operation table.old operator right) }
{
    let Reached { at, written, depth } = right;
    table[written] = operation(operator);
    Reached {
        at,
        written: written + 1,
        depth: left.depth.max(1 + depth),
    }
}
