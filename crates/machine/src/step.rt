// One step: "10, then 1 to 8 in order", with 12 "after 7 and before 8". It is a run of one step, so that the machine has one way to make a step.
ghost use Rattle.std.specs.Prelude.{◌≡◌};
ghost use Rattle.program.specs.Lent.{program_of};
ghost use Rattle.rules.specs.State.{memory};
ghost use Rattle.rules.specs.Step.{step};
ghost use Rattle.state.specs.Outcomes.{stepped};
ghost use Rattle.machine.specs.Outcomes.{only_step};

use crate::run;
use program::Program;
use rules::{Ending, MachineRefusal, Registers, Run, Step};

// What a run of one step, from a state that is not halted, says of that step.
fn only_step(ran: Run) -> Step
    ensures { result ≡ only_step ran.ending ran.registers }
{
    let ending = ran.ending;
    let registers = ran.registers;
    match ending {
        Ending::Halted | Ending::LimitReached => Step::Next(registers),
        Ending::Stopped(refusal) => Step::Refused(refusal),
    }
}

// One step: the new registers, or a refusal that changes nothing.
pub fn step(
    p: Program<'_>,
    r: Registers,
    bits: &mut [u32],
    tags: &mut [u8],
    history: &mut [u64],
    output: &mut [u8],
) -> Step
    ensures { stepped result bits.new tags.new history.new output.new ≡ step (program_of p.entry) r (memory bits.old tags.old history.old output.old) }
{
    let sound = state::is_sound(p, r, bits, tags, history, output);
    if !sound {
        return Step::Refused(MachineRefusal::Broken);
    }
    if r.halt != 0 {
        return Step::Refused(MachineRefusal::AlreadyHalted);
    }
    only_step(run::run_from(p, r, bits, tags, history, output, 1))
}
