// The formula translator for C.
ghost use Rattle.std.specs.Prelude.{◌≡◌};
ghost use Rattle.sam_c.specs.Calls.{filled, translate_call};

use crate::told;
use numbers::Numbered;
use rules::{Translated, sizes};

// "a refusal tells zeros".
const NO_PROGRAM: Translated = Translated {
    length: 0,
    depth: 0,
};

// Translates a formula into a table of 1,024 places, and tells the program's length and its depth.
#[unsafe(no_mangle)]
pub extern "C" fn sam_translate(formula: &[u8], table: &mut [u64], told: &mut [u64]) -> u32
    ensures { filled result told.new table.new ≡ translate_call formula.now table.old told.old }
{
    if told.len() != 2 {
        lent::blank(table, 0, sizes::MAX_PROGRAM);
        return told::NOT_ITS_LENGTH;
    }
    let answer = formula::translate(formula, table);
    let program = answer.unwrap_or(NO_PROGRAM);
    told.copy_from_slice(&[program.length as u64, program.depth as u64]);
    answer.number()
}
