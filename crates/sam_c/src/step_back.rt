// The step-back for C.
ghost use Rattle.std.specs.Prelude.{◌≡◌};
ghost use Rattle.rules.specs.Table.{program};
ghost use Rattle.rules.specs.State.{memory};
ghost use Rattle.sam_c.specs.Calls.{moved, back_call};

use crate::registers;
use numbers::Numbered;
use program::Program;

// Takes the last step back.
#[unsafe(no_mangle)]
pub extern "C" fn sam_step_back(
    table: &[u64],
    length: u64,
    registers: &mut [u64],
    bits: &mut [u32],
    tags: &mut [u8],
    history: &mut [u64],
    output: &mut [u8],
) -> u32
    ensures { moved result registers.new (memory bits.new tags.new history.new output.new) ≡ back_call (program table.now length) registers.old (memory bits.old tags.old history.old output.old) }
{
    let Some(r) = registers::read(registers) else {
        return registers::BROKEN;
    };
    let p = Program {
        table,
        length: length as usize,
    };
    let answer = back::step_back(p, r, bits, tags, history, output);
    registers::write(registers, numbers::registers_after(r, answer));
    answer.number()
}
