// The why for C.
ghost use Rattle.std.specs.Prelude.{◌≡◌};
ghost use Rattle.rules.specs.Table.{program};
ghost use Rattle.rules.specs.State.{memory};
ghost use Rattle.sam_c.specs.Calls.{answered, why_call};

use crate::{registers, told};
use numbers::Numbered;
use program::Program;
use rules::NO_STEP;

// Tells the newest kept step that wrote a cell.
#[unsafe(no_mangle)]
pub extern "C" fn sam_why(
    table: &[u64],
    length: u64,
    cell: u64,
    registers: &[u64],
    bits: &[u32],
    tags: &[u8],
    history: &[u64],
    output: &[u8],
    told: &mut [u64],
) -> u32
    ensures { answered result told.new ≡ why_call (program table.now length) cell registers.now (memory bits.now tags.now history.now output.now) told.old }
{
    if told.len() != 6 {
        return told::NOT_ITS_LENGTH;
    }
    let Some(r) = registers::read(registers) else {
        told.fill(0);
        return registers::BROKEN;
    };
    let p = Program {
        table,
        length: length as usize,
    };
    let answer = why::why(p, cell as usize, r, bits, tags, history, output);
    let named = answer.ok().flatten();
    let step = named.unwrap_or(NO_STEP);
    told.copy_from_slice(&[
        named.is_some() as u64,
        step.back as u64,
        step.pc as u64,
        step.instruction,
        step.before.tag as u64,
        step.before.bits as u64,
    ]);
    answer.number()
}
