// The formula translator: from a formula to a program in a table of 1,024 places, the most values that it holds told with it. It recurses over brackets and minus
// signs with the remaining nesting falling. The code of what is read is written at once, so that no tree is held.
#![tactic(auto)]

use parts::{Cursor, Reached};
use reading::Level;
use rules::{FormulaRefusal, Translated, sizes};
use scan::Next;

mod parts;
mod reading;
mod scan;

ghost use Rattle.std.specs.Prelude.{◌≡◌, ◌+◌, ◌≤◌};
ghost use Rattle.rules.specs.Sizes.{max_program};
ghost use Rattle.rules.specs.Translate.{translate};
ghost use Rattle.formula.specs.Parts.{Ended, Whole, blank};

// Where a formula is read from: nothing is written yet, and STOP is owed.
const START: Cursor = Cursor {
    at: 0,
    written: 0,
    owed: 1,
    nesting: sizes::MAX_NESTING,
};

// The end behind a sum: nothing else may stand there. The answer, with STOP counted.
fn end(formula: &[u8], sum: Reached) -> Result<Translated, FormulaRefusal>
    requires { sum.written + 1 ≤ max_program }
    ensures { Ended formula.now sum result }
{
    match scan::next_token(formula, sum.at) {
        Next::End => Ok(Translated {
            length: sum.written + 1,
            depth: sum.depth,
        }),
        other => Err(scan::misplaced(other)),
    }
}

// The program of a formula, over a table of zeros: STOP is a place of zeros.
#[tactic(auto, using(crate::proofs::Whole::whole_read))]
fn read_whole(formula: &[u8], table: &mut [u64]) -> Result<Translated, FormulaRefusal>
    requires { table.old ≡ blank }
    ensures { Whole formula.now table.new result }
{
    let sum = reading::chain(formula, table, START, Level::Sum)?;
    end(formula, sum)
}

// Translates a formula into a table: the program's length and its depth, or the first refusal from the left. A place that is not written is zero, and so is STOP.
#[tactic(auto, unfolding(rules::specs::Translate::translate))]
pub fn translate(formula: &[u8], table: &mut [u64]) -> Result<Translated, FormulaRefusal>
    ensures { (result ≡ (translate formula.now table.old).answer) × (table.new ≡ (translate formula.now table.old).table) }
{
    if table.len() != sizes::MAX_PROGRAM {
        return Err(FormulaRefusal::TableLength);
    }
    table.fill(0);
    if formula.len() > sizes::MAX_SOURCE {
        return Err(FormulaRefusal::FormulaTooLong);
    }
    let answer = read_whole(formula, table);
    if answer.is_err() {
        table.fill(0);
    }
    answer
}
