// A run: step after step, until HALT is 1, the limit is made, or a step is refused.
ghost use Rattle.std.specs.Prelude.{◌≡◌, true, ◌≤◌};
ghost use Rattle.rules.specs.Sizes.{max_limit};
ghost use Rattle.program.specs.Lent.{program_of};
ghost use Rattle.rules.specs.State.{memory, sound};
ghost use Rattle.rules.specs.Step.{step};
ghost use Rattle.rules.specs.Run.{run_from, run};
ghost use Rattle.state.specs.Outcomes.{stepped};
ghost use Rattle.machine.specs.Outcomes.{ran};

use crate::stack::Stack;
use crate::{carry, decide};
use program::Program;
use rules::{Ending, MachineRefusal, Registers, Run, Step, sizes};

// Stays: the lent slices one by one, here and in all calls that are lent a machine: a struct of them has to have a lifetime for each, is taken apart where it comes in and is made
// anew at each call that it is handed on to (tried), and C lends them one by one, bits and tags apart.

// One step of a sound state with HALT 0, neither of which is asked again: 2 to 7 in order, 12 and 8, or what the instruction does.
fn take_step(
    p: Program<'_>,
    r: Registers,
    bits: &mut [u32],
    tags: &mut [u8],
    history: &mut [u64],
    output: &mut [u8],
) -> Step
    requires output_value { sound (program_of p) r (memory bits.old tags.old history.old output.old) ≡ true }
    requires halt_value { r.halt ≡ 0 }
    ensures { stepped result bits.new tags.new history.new output.new ≡ step (program_of p.entry) r (memory bits.old tags.old history.old output.old) }
{
    if r.pc == p.length {
        return Step::Refused(MachineRefusal::AtEnd);
    }
    let d = decide::decide_at(p.table[r.pc], Stack { r, bits, tags });
    carry::carry(r, d, bits, tags, history, output)
}

// The same registers. N and H are written down as those of the run's start, which they are, so that the compiler does not carry them from step to step.
fn with_sizes(n: usize, h: usize, r: Registers) -> Registers
    requires { (r.n ≡ n) × (r.h ≡ h) }
    ensures { result ≡ r }
{
    Registers { n, h, ..r }
}

// A run's answer.
fn ended(made: usize, how: Ending, at: Registers) -> Run
    ensures { result ≡ record { steps = made; ending = how; registers = at } }
{
    Run {
        steps: made,
        ending: how,
        registers: at,
    }
}

// The steps of a run from a sound state, whose soundness is not judged again: each accepted step leaves a sound state.
pub(crate) fn run_from(
    p: Program<'_>,
    r: Registers,
    bits: &mut [u32],
    tags: &mut [u8],
    history: &mut [u64],
    output: &mut [u8],
    limit: usize,
) -> Run
    requires output_value { sound (program_of p) r (memory bits.old tags.old history.old output.old) ≡ true }
    requires limit_le_max_limit { limit ≤ max_limit }
    ensures output_after { ran result bits.new tags.new history.new output.new ≡ run_from (program_of p.entry) limit 0 r (memory bits.old tags.old history.old output.old) }
    ensures steps_le_limit { result.steps ≤ limit }
{
    if r.halt != 0 {
        return ended(0, Ending::Halted, r);
    }
    let mut at = r;
    for made in 0..limit {
        match take_step(p, at, bits, tags, history, output) {
            Step::Refused(refusal) => return ended(made, Ending::Stopped(refusal), at),
            Step::Next(registers) => {
                if registers.halt != 0 {
                    return ended(made + 1, Ending::Halted, registers);
                }
                at = with_sizes(r.n, r.h, registers);
            }
        }
    }
    ended(limit, Ending::LimitReached, at)
}

// A run of at most `limit` steps. It tells the steps it made, how it ended, and the registers it left.
pub fn run(
    p: Program<'_>,
    r: Registers,
    bits: &mut [u32],
    tags: &mut [u8],
    history: &mut [u64],
    output: &mut [u8],
    limit: usize,
) -> Run
    ensures value { result ≡ (run (program_of p.entry) limit r (memory bits.old tags.old history.old output.old)).answer }
    ensures output_after { memory bits.new tags.new history.new output.new ≡ (run (program_of p.entry) limit r (memory bits.old tags.old history.old output.old)).memory }
    ensures steps_le_limit { result.steps ≤ limit }
{
    if sizes::MAX_LIMIT < limit {
        return ended(0, Ending::Stopped(MachineRefusal::OutsideSizes), r);
    }
    let sound = state::is_sound(p, r, bits, tags, history, output);
    if !sound {
        return ended(0, Ending::Stopped(MachineRefusal::Broken), r);
    }
    run_from(p, r, bits, tags, history, output, limit)
}
