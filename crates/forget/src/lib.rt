// Forget: the oldest kept steps are given up, the records of the others move down, and the room gained is zeroed.
#![tactic(auto)]

ghost use Rattle.std.specs.Prelude.{◌≡◌, ◌≤◌, length};
ghost use Rattle.rules.specs.State.{memory};
ghost use Rattle.rules.specs.Forget.{moved_down, forget};
ghost use Rattle.program.specs.Lent.{program_of};
ghost use Rattle.forget.specs.Outcomes.{forgot};

use program::Program;
use rules::{ForgetRefusal, Registers};

// Of the `used` places gives up the first `free`: moves the others down, and zeroes the room gained.
fn move_down(history: &mut [u64], free: usize, used: usize)
    requires free_le_used { free ≤ used }
    requires used_in_bounds { used ≤ length history.old }
    ensures { history.new ≡ moved_down free used history.old }
{
    history.copy_within(free..used, 0);
    history[used - free..used].fill(0);
}

// Forgets the k oldest kept steps: 10 for a broken table or state, a record in use that is not well formed, or a kept number that is not that of the records in
// use; then 14 where fewer than k are kept. A refusal changes nothing.
// Stays: the lent slices one by one, since a struct of them needs a lifetime for each, is taken apart where it comes in and is made anew at each call, and C lends them one by one.
#[tactic(auto, using(state::proofs::Parts::held), unfolding(rules::specs::Forget::forget, records::specs::Judgements::judgement))]
pub fn forget(
    p: Program<'_>,
    k: usize,
    r: Registers,
    bits: &[u32],
    tags: &[u8],
    history: &mut [u64],
    output: &[u8],
) -> Result<Registers, ForgetRefusal>
    ensures { forgot result bits.now tags.now history.new output.now ≡ forget (program_of p.entry) k r (memory bits.now tags.now history.old output.now) }
{
    if !state::is_sound(p, r, bits, tags, history, output) {
        return Err(ForgetRefusal::RecordsBroken);
    }
    let stay = r.kept.saturating_sub(k);
    let free = records::judge(history, r.used, r.n, p.length, r.kept, stay).ok_or(
        ForgetRefusal::RecordsBroken,
    )?;
    if r.kept < k {
        return Err(ForgetRefusal::TooManySteps);
    }
    move_down(history, free, r.used);
    Ok(Registers {
        used: r.used - free,
        kept: stay,
        ..r
    })
}
