// The way of WRITECH, which alone takes the output: a byte behind those that are written.
ghost use Rattle.std.specs.Prelude.{◌≡◌, ◌<◌, length};
ghost use Rattle.rules.specs.Cells.{cells};
ghost use Rattle.rules.specs.State.{memory};
ghost use Rattle.rules.specs.Step.{in_output, in_history, carried};
ghost use Rattle.state.specs.Outcomes.{stepped};
ghost use Rattle.machine.specs.Spans.{byte_span};
ghost use Rattle.machine.specs.Small.{Small};
ghost use Rattle.machine.specs.Fits.{Fits};
ghost use Rattle.machine.specs.Plan.{shows};

use crate::{commit, effects};
use rules::{MachineRefusal, Registers, Step};

// "12 when the output is full", then the commit, which asks 8; and where both pass, the byte.
pub(crate) fn show(
    r: Registers,
    sp: usize,
    character: u32,
    bits: &mut [u32],
    tags: &mut [u8],
    history: &mut [u64],
    output: &mut [u8],
) -> Step
    requires small { Small r × (character < byte_span) }
    requires fits { Fits r (shows r sp character) (cells bits.old tags.old) history.old }
    ensures { stepped result bits.new tags.new history.new output.new ≡ carried r (memory bits.old tags.old history.old output.old) (in_history r (in_output r (length output.old) (Ok (shows r sp character)))) }
{
    let written = r.written;
    if output.len() <= written {
        return Step::Refused(MachineRefusal::OutputFull);
    }
    let next = commit::commit(r, effects::shows(r, sp, character), bits, tags, history);
    if let Step::Next(_) = next {
        output[written] = character as u8;
    }
    next
}
