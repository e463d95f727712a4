// The run for C.
ghost use Rattle.std.specs.Prelude.{◌≡◌};
ghost use Rattle.rules.specs.Table.{program};
ghost use Rattle.rules.specs.State.{memory};
ghost use Rattle.sam_c.specs.Calls.{walked, run_call};

use crate::{registers, told};
use numbers::Numbered;
use program::Program;
use rules::sizes;

// Makes at most `limit` steps, and tells how many it made.
#[unsafe(no_mangle)]
pub extern "C" fn sam_run(
    table: &[u64],
    length: u64,
    limit: u64,
    registers: &mut [u64],
    bits: &mut [u32],
    tags: &mut [u8],
    history: &mut [u64],
    output: &mut [u8],
    told: &mut [u64],
) -> u32
    ensures { walked told.new result registers.new (memory bits.new tags.new history.new output.new) ≡ run_call (program table.now length) limit registers.old (memory bits.old tags.old history.old output.old) told.old }
{
    if told.len() != 1 {
        return told::NOT_ITS_LENGTH;
    }
    let Some(r) = registers::read(registers) else {
        told.fill(0);
        return registers::refused(limit as usize <= sizes::MAX_LIMIT);
    };
    let p = Program {
        table,
        length: length as usize,
    };
    let answer = machine::run::run(p, r, bits, tags, history, output, limit as usize);
    registers::write(registers, answer.registers);
    told.copy_from_slice(&[answer.steps as u64]);
    answer.ending.number()
}
