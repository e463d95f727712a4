// Carrying out a plan: its effect, or its refusal.
ghost use Rattle.std.specs.Prelude.{◌≡◌, length};
ghost use Rattle.rules.specs.Cells.{cells};
ghost use Rattle.rules.specs.State.{memory};
ghost use Rattle.rules.specs.Step.{in_output, in_history, carried};
ghost use Rattle.rules.specs.declared.Effect.{Effect};
ghost use Rattle.state.specs.Outcomes.{stepped};
ghost use Rattle.machine.specs.Small.{Small};
ghost use Rattle.machine.specs.Live.{Live};
ghost use Rattle.machine.specs.Fits.{Fits};
ghost use Rattle.machine.specs.Plan.{planned};

use crate::plans::{Plan, Planned};
use crate::stack::Stack;
use crate::{commit, effects, panel};
use rules::{Registers, Step};

pub(crate) fn carry(
    r: Registers,
    d: Planned,
    bits: &mut [u32],
    tags: &mut [u8],
    history: &mut [u64],
    output: &mut [u8],
) -> Step
    requires small { Small r × Live r bits.old tags.old }
    requires fits { (e : Effect) → planned r (cells bits.old tags.old) d ≡ Ok e → Fits r e (cells bits.old tags.old) history.old }
    ensures { stepped result bits.new tags.new history.new output.new ≡ carried r (memory bits.old tags.old history.old output.old) (in_history r (in_output r (length output.old) (planned r (cells bits.old tags.old) d))) }
{
    // Stays: a commit in each arm, so that each is compiled with what it writes known: with one behind the match a step takes twice as many machine instructions (tried).
    match d {
        Err(refusal) => Step::Refused(refusal),
        Ok(Plan::Show { sp, character }) => panel::show(
            r, sp, character, bits, tags, history, output,
        ),
        Ok(Plan::Push { at, cell }) => commit::commit(
            r,
            effects::pushes(r, at, cell),
            bits,
            tags,
            history,
        ),
        Ok(Plan::Jump { sp, target }) => commit::commit(
            r,
            effects::jumps(r, sp, target),
            bits,
            tags,
            history,
        ),
        Ok(Plan::Store { sp, at }) => commit::commit(
            r,
            effects::stores(Stack { r, bits, tags }, sp, at),
            bits,
            tags,
            history,
        ),
        Ok(Plan::Call { at, target }) => commit::commit(
            r,
            effects::calls(r, at, target),
            bits,
            tags,
            history,
        ),
        Ok(Plan::Link) => commit::commit(r, effects::links(r), bits, tags, history),
        Ok(Plan::Move { sp, from }) => commit::commit(
            r,
            effects::moves(r, sp, from),
            bits,
            tags,
            history,
        ),
        Ok(Plan::Frame { sp, fbr }) => commit::commit(
            r,
            effects::frames(r, sp, fbr),
            bits,
            tags,
            history,
        ),
        Ok(Plan::Halt) => commit::commit(r, effects::halts(r), bits, tags, history),
        Ok(Plan::Swap) => commit::commit(
            r,
            effects::swaps(Stack { r, bits, tags }),
            bits,
            tags,
            history,
        ),
        Ok(Plan::Fill { sp, from }) => commit::commit(
            r,
            effects::fills(r, sp, from),
            bits,
            tags,
            history,
        ),
    }
}
