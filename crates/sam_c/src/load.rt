// The load for C.
ghost use Rattle.std.specs.Prelude.{◌≡◌};
ghost use Rattle.rules.specs.Table.{program};
ghost use Rattle.rules.specs.State.{memory};
ghost use Rattle.sam_c.specs.Calls.{moved, load_call};

use crate::registers;
use numbers::Numbered;
use program::Program;
use state::Lengths;

// Loads a saved state into cells, tags, history and output, and sets the registers; refused, sets the registers to 0.
#[unsafe(no_mangle)]
pub extern "C" fn sam_load(
    image: &[u8],
    table: &[u64],
    length: u64,
    registers: &mut [u64],
    bits: &mut [u32],
    tags: &mut [u8],
    history: &mut [u64],
    output: &mut [u8],
) -> u32
    ensures { moved result registers.new (memory bits.new tags.new history.new output.new) ≡ load_call image.now (program table.now length) registers.old (memory bits.old tags.old history.old output.old) }
{
    if registers.len() != registers::COUNT {
        return registers::refused_load(saved::entry(
            image,
            Lengths::of(bits, tags, history, output),
        ));
    }
    let p = Program {
        table,
        length: length as usize,
    };
    let answer = saved::load(image, p, bits, tags, history, output);
    registers::write(registers, saved::registers_resumed(answer));
    answer.number()
}
