// The depth checker: whether a list of stack depths fits the program that it came with.
#![tactic(auto)]

ghost use Rattle.std.specs.Prelude.{◌≡◌, ◌≤◌, ◌<◌, length, Err};
ghost use Rattle.rules.specs.Lists.{all};
ghost use Rattle.rules.specs.Instructions.{row_of, action_of};
ghost use Rattle.rules.specs.Table.{code_of};
ghost use Rattle.rules.specs.DepthList.{followers, forbidden, allowed_at, listed, rule_of, rule, check};
ghost use Rattle.program.specs.Lent.{program_of};
ghost use Rattle.depths.specs.Judged.{Known, Judgeable, failing};

use program::Program;
use rules::{DepthFault, DepthRefusal, codes, sizes};

// Whether the instruction is forbidden in a program with a depth list.
#[tactic(auto, using(crate::proofs::Codes::forbidden_is))]
fn is_forbidden(instruction: u64) -> bool
    ensures { result ≡ forbidden (row_of (code_of instruction)) }
{
    matches!(
        program::table::code_of(instruction),
        codes::POPSP | codes::JUMPIND | codes::JSR | codes::JSRIND
    )
}

// The first place with a forbidden instruction, if any.
fn first_forbidden(p: Program<'_>) -> Option<usize>
    requires { p.length ≤ length p.table.now }
    ensures { result ≡ failing (allowed_at (program_of p.entry)) p.entry.length }
{
    p.table[..p.length]
        .iter()
        .position(|instruction| is_forbidden(*instruction))
}

// Whether the place is one of the program's, which the list has the length of, and is listed with that depth.
#[tactic(auto, unfolding(rules::specs::DepthList::listed))]
fn is_listed(depths: &[u16], depth: usize, place: usize) -> bool
    ensures { result ≡ listed (length depths.now) depths.now depth place }
{
    place < depths.len() && depths[place] as usize == depth
}

// Whether each place that may follow is listed with that depth.
#[tactic(auto, using(crate::proofs::Codes::followings), unfolding(rules::specs::Lists::all))]
fn are_listed(depths: &[u16], depth: usize, code: usize, operand: u32, place: usize) -> bool
    requires { Known code × (place < length depths.now) }
    ensures { result ≡ all (listed (length depths.now) depths.now depth) (followers (action_of code) operand place) }
{
    match code {
        codes::STOP => true,
        codes::JUMP => is_listed(depths, depth, operand as usize),
        codes::JUMPC => {
            is_listed(depths, depth, place + 1) && is_listed(depths, depth, operand as usize)
        }
        _ => is_listed(depths, depth, place + 1),
    }
}

// Whether a place with that depth passes its rule.
#[tactic(auto, using(crate::proofs::Rules::rule_steps))]
fn passes_rule(depths: &[u16], n: usize, instruction: u64, place: usize, depth: u16) -> bool
    requires { Known (code_of instruction) × (place < length depths.now) }
    ensures { result ≡ rule_of (length depths.now) n depths.now instruction place depth }
{
    if depth == sizes::NOT_REACHED {
        return true;
    }
    let code = program::table::code_of(instruction);
    let operand = program::table::operand_of(instruction);
    let moves = program::moves::moves_of(code, operand);
    let Some(left) = (depth as usize).checked_sub(moves.needs as usize) else {
        return false;
    };
    let after = left + moves.leaves as usize;
    after < n && are_listed(depths, after, code, operand, place)
}

// The first place whose rule fails, if any.
fn first_failing(p: Program<'_>, n: usize, depths: &[u16]) -> Option<usize>
    requires { Judgeable (program_of p) depths.now }
    ensures { result ≡ failing (rule (program_of p.entry) n depths.now) p.entry.length }
{
    // Stays: a loop, since with `find` two goals stay open that the loop does not have (tried).
    for place in 0..p.length {
        if !passes_rule(depths, n, p.table[place], place, depths[place]) {
            return Some(place);
        }
    }
    None
}

// The answer to a list that is refused.
fn refused(refusal: DepthRefusal, place: usize) -> Result<(), DepthFault>
    ensures { result ≡ Err (record { refusal = refusal; place = place }) }
{
    Err(DepthFault { refusal, place })
}

// Judges the list for a machine of N cells. Nothing is written.
#[tactic(auto, unfolding(rules::specs::DepthList::check))]
pub fn check(p: Program<'_>, n: usize, depths: &[u16]) -> Result<(), DepthFault>
    ensures { result ≡ check (program_of p.entry) n depths.now }
{
    if !p.is_sound() {
        return refused(DepthRefusal::UnsoundTable, 0);
    }
    if n < 1 || sizes::MAX_CELLS < n {
        return refused(DepthRefusal::OutsideCells, 0);
    }
    if depths.len() != p.length {
        return refused(DepthRefusal::ListLength, 0);
    }
    if let Some(place) = first_forbidden(p) {
        return refused(DepthRefusal::ForbiddenInstruction, place);
    }
    if !is_listed(depths, 0, 0) {
        return refused(DepthRefusal::RuleFailed, 0);
    }
    if let Some(place) = first_failing(p, n, depths) {
        return refused(DepthRefusal::RuleFailed, place);
    }
    Ok(())
}
