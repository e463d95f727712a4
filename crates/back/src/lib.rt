// Step-back: whether the top record of the history can be taken back, and what it keeps put back.
#![tactic(auto)]

ghost use Rattle.std.specs.Prelude.{◌≡◌, true, not, ◌||◌, ℕ, ◌≤◌, ◌<◌, eqb, ltb, length, get_or};
ghost use Rattle.rules.specs.Places.{cell_address, cell_tag, cell_bits, step_pc, step_sp, step_fbr, step_count};
ghost use Rattle.rules.specs.Instructions.{write_ch_code};
ghost use Rattle.rules.specs.Table.{code_of};
ghost use Rattle.rules.specs.State.{memory};
ghost use Rattle.rules.specs.Back.{written_back, output_back, restored, undone_at, plain_back, back};
ghost use Rattle.program.specs.Lent.{program_of};
ghost use Rattle.state.specs.Held.{Held};
ghost use Rattle.state.specs.Outcomes.{stepped};
ghost use Rattle.back.specs.Undoable.{Undoable};

use program::Program;
use rules::{MachineRefusal, Registers, Step, codes};

// Whether the instruction at that PC is a WRITECH.
fn shows_at(table: &[u64], pc: usize) -> bool
    requires { pc < length table.now }
    ensures { result ≡ eqb (code_of (get_or table.now pc 0)) write_ch_code }
{
    program::table::code_of(table[pc]) == codes::WRITECH
}

// Whether there is a byte to drop, where a WRITECH is taken back.
fn can_drop(shows: bool, written: usize) -> bool
    ensures { result ≡ (not shows || ltb 0 written) }
{
    !shows || 0 < written
}

// Puts back the bits and the tags that the cell places keep.
fn restore(bits: &mut [u32], tags: &mut [u8], cells: &[u64])
    requires bits_len { length bits.old ≡ length tags.old }
    requires by_index { (k : ℕ) → k < length cells.now → cell_address (get_or cells.now k 0) < length bits.old }
    ensures bits_after { bits.new ≡ restored cell_bits cells.now bits.old }
    ensures tags_after { tags.new ≡ restored cell_tag cells.now tags.old }
{
    for place in cells {
        let address = places::cell_address(*place);
        bits[address] = places::cell_bits(*place);
        tags[address] = places::cell_tag(*place);
    }
}

// Drops and zeroes the last of the bytes written, where a WRITECH is taken back, and answers how many are written then.
fn drop_last(shows: bool, written: usize, output: &mut [u8]) -> usize
    requires written_in_bounds { written ≤ length output.old }
    requires written_value { (not shows || ltb 0 written) ≡ true }
    ensures value { result ≡ written_back shows written }
    ensures output_after { output.new ≡ output_back shows written output.old }
{
    if !shows {
        return written;
    }
    let last = written - 1;
    output[last] = 0;
    last
}

// Takes the top record back: restores its cells, zeroes its places, drops its byte, and answers the old registers with HALT 0.
fn undo(
    top: u64,
    shows: bool,
    r: Registers,
    bits: &mut [u32],
    tags: &mut [u8],
    history: &mut [u64],
    output: &mut [u8],
) -> Step
    requires { Undoable top shows r (memory bits.old tags.old history.old output.old) }
    ensures { stepped result bits.new tags.new history.new output.new ≡ undone_at (step_pc top) (step_sp top) (step_fbr top) (step_count top) shows r (memory bits.old tags.old history.old output.old) }
{
    let last = r.used - 1;
    let from = last - places::step_count(top);
    restore(bits, tags, &history[from..last]);
    history[from..r.used].fill(0);
    Step::Next(Registers {
        pc: places::step_pc(top),
        sp: places::step_sp(top),
        fbr: places::step_fbr(top),
        halt: 0,
        used: from,
        kept: r.kept - 1,
        written: drop_last(shows, r.written, output),
        ..r
    })
}

// A step-back of a sound state: 9 where no place is used, then 10 for a top record that is not well formed, or at a WRITECH with nothing written.
// Stays: the lent slices one by one, since a struct of them needs a lifetime for each, is taken apart where it comes in and is made anew at each call, and C lends them one by one.
#[tactic(auto, unfolding(rules::specs::Back::plain_back))]
fn plain_back(
    p: Program<'_>,
    r: Registers,
    bits: &mut [u32],
    tags: &mut [u8],
    history: &mut [u64],
    output: &mut [u8],
) -> Step
    requires { Held (program_of p) r (memory bits.old tags.old history.old output.old) }
    ensures { stepped result bits.new tags.new history.new output.new ≡ plain_back (program_of p.entry) r (memory bits.old tags.old history.old output.old) }
{
    if r.used == 0 {
        return Step::Refused(MachineRefusal::NoHistory);
    }
    let last = r.used - 1;
    if !records::is_formed_record(history, last, r.n, p.length) {
        return Step::Refused(MachineRefusal::Broken);
    }
    let top = history[last];
    let shows = shows_at(p.table, places::step_pc(top));
    if !can_drop(shows, r.written) {
        return Step::Refused(MachineRefusal::Broken);
    }
    undo(top, shows, r, bits, tags, history, output)
}

// Undoes the last step that the history keeps: 10 for a broken table, state or top record, 9 where no place is used.
#[tactic(auto, using(state::proofs::Parts::held), unfolding(rules::specs::Back::back))]
pub fn step_back(
    p: Program<'_>,
    r: Registers,
    bits: &mut [u32],
    tags: &mut [u8],
    history: &mut [u64],
    output: &mut [u8],
) -> Step
    ensures { stepped result bits.new tags.new history.new output.new ≡ back (program_of p.entry) r (memory bits.old tags.old history.old output.old) }
{
    if !state::is_sound(p, r, bits, tags, history, output) {
        return Step::Refused(MachineRefusal::Broken);
    }
    plain_back(p, r, bits, tags, history, output)
}
