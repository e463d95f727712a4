// The reset for C.
ghost use Rattle.std.specs.Prelude.{◌≡◌};
ghost use Rattle.rules.specs.Table.{program};
ghost use Rattle.rules.specs.State.{memory};
ghost use Rattle.sam_c.specs.Calls.{moved, reset_call};

use crate::registers;
use numbers::Numbered;
use program::Program;
use state::Lengths;

// Sets cells to INT 0, all history places and all bytes of the output to 0, N and H to the lent counts and the other registers to 0; refused, sets the
// registers to 0.
#[unsafe(no_mangle)]
pub extern "C" fn sam_reset(
    table: &[u64],
    length: u64,
    registers: &mut [u64],
    bits: &mut [u32],
    tags: &mut [u8],
    history: &mut [u64],
    output: &mut [u8],
) -> u32
    ensures { moved result registers.new (memory bits.new tags.new history.new output.new) ≡ reset_call (program table.now length) registers.old (memory bits.old tags.old history.old output.old) }
{
    if registers.len() != registers::COUNT {
        return registers::refused(Lengths::of(bits, tags, history, output).are_start_sizes());
    }
    let p = Program {
        table,
        length: length as usize,
    };
    let answer = state::reset(p, bits, tags, history, output);
    registers::write(registers, state::registers_begun(answer));
    answer.number()
}
