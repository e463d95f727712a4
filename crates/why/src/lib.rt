// Why a cell holds what it holds: the newest kept step that wrote it, with what it held before.
#![tactic(auto)]

ghost use Rattle.std.specs.Prelude.{◌≡◌, ◌≤◌, ◌<◌, length, Ok};
ghost use Rattle.rules.specs.Places.{step_pc};
ghost use Rattle.rules.specs.State.{memory};
ghost use Rattle.rules.specs.Records.{cut_down};
ghost use Rattle.rules.specs.Why.{named_step, newest, why};
ghost use Rattle.program.specs.Lent.{program_of};
ghost use Rattle.why.specs.Readable.{AllReadable};

use program::Program;
use rules::{Cell, NamedStep, Registers, WhyRefusal};

// A why asks nothing of the places that lie below some newest records.
const STAY: usize = 0;

// The step of a step place, so many steps back, with what the cell held before: `old` is the cell's place in its record.
fn named_step(table: &[u64], back: usize, step: u64, old: u64) -> NamedStep
    requires { step_pc step < length table.now }
    ensures { result ≡ named_step table.now back step old }
{
    let pc = places::step_pc(step);
    NamedStep {
        back,
        pc,
        instruction: table[pc],
        before: Cell {
            bits: places::cell_bits(old),
            tag: places::cell_tag(old),
        },
    }
}

// Looks down the `used` places from the last: a step place begins the next older record, and the first cell place of the cell tells its step.
fn newest(table: &[u64], history: &[u64], used: usize, cell: usize) -> Option<NamedStep>
    requires used_in_bounds { used ≤ length history.now }
    requires all_readable { AllReadable (length table.now) (cut_down 0 used history.now) }
    ensures { Ok result ≡ newest table.now cell 1 (cut_down 0 used history.now) }
{
    let mut back = 0;
    let mut step = 0;
    for place in history[..used].iter().rev() {
        if places::mark_of(*place) == places::STEP_MARK {
            back += 1;
            step = *place;
        } else if places::cell_address(*place) == cell {
            return Some(named_step(table, back, step, *place));
        }
    }
    None
}

// Names the newest kept step that wrote a cell: 10 as for a forget, then 6 where the cell is not below N. It writes nothing.
// Stays: the lent slices one by one, since a struct of them needs a lifetime for each, is taken apart where it comes in and is made anew at each call, and C lends them one by one.
#[tactic(auto, using(state::proofs::Parts::held), unfolding(rules::specs::Why::why, records::specs::Judgements::judgement))]
pub fn why(
    p: Program<'_>,
    cell: usize,
    r: Registers,
    bits: &[u32],
    tags: &[u8],
    history: &[u64],
    output: &[u8],
) -> Result<Option<NamedStep>, WhyRefusal>
    ensures { result ≡ why (program_of p.entry) cell r (memory bits.now tags.now history.now output.now) }
{
    if !state::is_sound(p, r, bits, tags, history, output) {
        return Err(WhyRefusal::HistoryBroken);
    }
    records::judge(history, r.used, r.n, p.length, r.kept, STAY).ok_or(WhyRefusal::HistoryBroken)?;
    if r.n <= cell {
        return Err(WhyRefusal::NoSuchCell);
    }
    Ok(newest(p.table, history, r.used, cell))
}
