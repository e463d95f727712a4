// The assembler: from a source to a table of 1,024 places. The first pass judges the tokens from the left and keeps an item in the table for
// each instruction; the second settles the targets in program order. What the first pass knows is one local of `translate`. Line and column are
// counted once a source is refused.
#![tactic(auto)]

use held::{FirstPass, Label, Stop};
use rules::{NO_POSITION, SourceFault, TextRefusal, sizes};

mod classes;
mod held;
mod judge;
mod operand;
mod position;
mod search;
mod targets;

ghost use Rattle.std.specs.Prelude.{◌≡◌, ◌≤◌, length};
ghost use Rattle.rules.specs.Sizes.{max_source, max_program};
ghost use Rattle.rules.specs.Assemble.{translated, assemble};
ghost use Rattle.assembler.specs.Held.{OutcomeIs};

// Both passes: the table's first places hold the program, where there is one.
fn translate(source: &[u8], table: &mut [u64]) -> Result<usize, Stop>
    requires { (length table.old ≡ max_program) × (length source.now ≤ max_source) }
    ensures { OutcomeIs table.new (translated source.now) result }
{
    let label = Label {
        start: 0,
        length: 0,
        address: 0,
    };
    let mut pass = FirstPass {
        items: 0,
        labels: [label; sizes::MAX_LABELS],
        named: 0,
        awaited: None,
    };
    pass.judge_all(source, table)?;
    if pass.awaited.is_some() {
        return Err(Stop {
            refusal: TextRefusal::OperandMissing,
            place: source.len(),
        });
    }
    targets::settle_all(source, &mut table[..pass.items], pass.labels())?;
    Ok(pass.items)
}

// Assembles a source into a table: the number of instructions, or the first fault and where it stands.
pub fn assemble(source: &[u8], table: &mut [u64]) -> Result<usize, SourceFault>
    ensures { (result ≡ (assemble source.now table.old).answer) × (table.new ≡ (assemble source.now table.old).table) }
{
    if table.len() != sizes::MAX_PROGRAM {
        return Err(SourceFault {
            refusal: TextRefusal::WrongLength,
            position: NO_POSITION,
        });
    }
    if source.len() > sizes::MAX_SOURCE {
        table.fill(0);
        return Err(SourceFault {
            refusal: TextRefusal::SourceTooLong,
            position: NO_POSITION,
        });
    }
    match translate(source, table) {
        Ok(n) => {
            table[n..].fill(0);
            Ok(n)
        }
        Err(Stop { refusal, place }) => {
            table.fill(0);
            Err(SourceFault {
                refusal,
                position: position::position_of(source, place),
            })
        }
    }
}
