// The assembler for C.
ghost use Rattle.std.specs.Prelude.{◌≡◌};
ghost use Rattle.sam_c.specs.Calls.{filled, assemble_call};

use crate::told;
use numbers::Numbered;
use rules::{NO_POSITION, sizes};

// Assembles a source into a table of 1,024 places, and tells the program's length, and place, line and column of a refusal.
#[unsafe(no_mangle)]
pub extern "C" fn sam_assemble(source: &[u8], table: &mut [u64], told: &mut [u64]) -> u32
    ensures { filled result told.new table.new ≡ assemble_call source.now table.old told.old }
{
    if told.len() != 4 {
        lent::blank(table, 0, sizes::MAX_PROGRAM);
        return told::NOT_ITS_LENGTH;
    }
    let answer = assembler::assemble(source, table);
    let position = answer.err().map_or(NO_POSITION, |fault| fault.position);
    told.copy_from_slice(&[
        answer.unwrap_or(0) as u64,
        position.place as u64,
        position.line as u64,
        position.column as u64,
    ]);
    answer.number()
}
