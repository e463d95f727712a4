// The dwell reader for C.
ghost use Rattle.std.specs.Prelude.{◌≡◌};
ghost use Rattle.rules.specs.Table.{program};
ghost use Rattle.rules.specs.State.{memory};
ghost use Rattle.sam_c.specs.Calls.{answered, dwell_call};

use crate::{registers, told};
use numbers::Numbered;
use program::Program;

// Reads the dwell off cell 0 of a halted machine, and tells its tenths.
#[unsafe(no_mangle)]
pub extern "C" fn sam_dwell(
    table: &[u64],
    length: u64,
    registers: &[u64],
    bits: &[u32],
    tags: &[u8],
    history: &[u64],
    output: &[u8],
    told: &mut [u64],
) -> u32
    ensures { answered result told.new ≡ dwell_call (program table.now length) registers.now (memory bits.now tags.now history.now output.now) told.old }
{
    if told.len() != 1 {
        return told::NOT_ITS_LENGTH;
    }
    let Some(r) = registers::read(registers) else {
        told.fill(0);
        return registers::BROKEN;
    };
    let p = Program {
        table,
        length: length as usize,
    };
    let answer = dwell::dwell(p, r, bits, tags, history, output);
    told.copy_from_slice(&[answer.unwrap_or(0) as u64]);
    answer.number()
}
