// The forget for C.
ghost use Rattle.std.specs.Prelude.{◌≡◌};
ghost use Rattle.rules.specs.Table.{program};
ghost use Rattle.rules.specs.State.{memory};
ghost use Rattle.sam_c.specs.Calls.{moved, forget_call};

use crate::registers;
use numbers::Numbered;
use program::Program;

// Forgets the k oldest kept steps.
#[tactic(auto, unfolding(crate::specs::Calls::of_length, rules::specs::Forget::forget))]
#[unsafe(no_mangle)]
pub extern "C" fn sam_forget(
    table: &[u64],
    length: u64,
    k: u64,
    registers: &mut [u64],
    bits: &[u32],
    tags: &[u8],
    history: &mut [u64],
    output: &[u8],
) -> u32
    ensures { moved result registers.new (memory bits.now tags.now history.new output.now) ≡ forget_call (program table.now length) k registers.old (memory bits.now tags.now history.old output.now) }
{
    let Some(r) = registers::read(registers) else {
        return registers::BROKEN;
    };
    let p = Program {
        table,
        length: length as usize,
    };
    let answer = forget::forget(p, k as usize, r, bits, tags, history, output);
    registers::write(registers, answer.unwrap_or(r));
    answer.number()
}
