// Commit: what an accepted step writes to the history and to the cells, and the registers after. One for all instructions: the effect says which cells. The
// output is not lent here: the way of the one instruction that shows a byte writes it.
ghost use Rattle.std.specs.Prelude.{◌≡◌, List, [], ℕ, ◌+◌, ◌≤◌, length, replicate};
ghost use Rattle.rules.specs.Lists.{splice};
ghost use Rattle.rules.specs.Cells.{cells};
ghost use Rattle.rules.specs.State.{memory};
ghost use Rattle.rules.specs.Commit.{block, record_of, written_after, registers_with};
ghost use Rattle.rules.specs.Sizes.{max_output};
ghost use Rattle.state.specs.Outcomes.{stepped};
ghost use Rattle.machine.specs.Fields.{Fields};
ghost use Rattle.machine.specs.Fits.{Fits};
ghost use Rattle.machine.specs.Committed.{output_by, committed};

use crate::records;
use rules::{Effect, MachineRefusal, Registers, Step};

// Sets `count` cells, from `from` on, to INT 0.
fn zero_cells(bits: &mut [u32], tags: &mut [u8], from: usize, count: usize)
    requires { (length tags.old ≡ length bits.old) × (from + count ≤ length bits.old) }
    ensures bits_after { bits.new ≡ splice bits.old from (replicate count 0) }
    ensures tags_after { tags.new ≡ splice tags.old from (replicate count 0) }
{
    // Stays: a loop, since with `fill` the run takes over three times as many machine instructions (tried).
    for i in 0..count {
        bits[from + i] = 0;
        tags[from + i] = 0;
    }
}

// Writes the effect's block of cells: none, one, or more.
fn put(e: Effect, bits: &mut [u32], tags: &mut [u8])
    requires { (length tags.old ≡ length bits.old) × (e.at + e.count ≤ length bits.old) }
    ensures bits_after { bits.new ≡ splice bits.old e.at (block e.count e.first.bits e.second.bits) }
    ensures tags_after { tags.new ≡ splice tags.old e.at (block e.count e.first.tag e.second.tag) }
{
    let at = e.at;
    let count = e.count;
    if count == 0 {
        return;
    }
    bits[at] = e.first.bits;
    tags[at] = e.first.tag;
    if count == 1 {
        return;
    }
    let next = at + 1;
    bits[next] = e.second.bits;
    tags[next] = e.second.tag;
    zero_cells(bits, tags, next + 1, count - 2);
}

// Adds the step's record: the cell places of the cells that the effect overwrites, by rising address, then the step place.
fn add_record(r: Registers, e: Effect, bits: &[u32], tags: &[u8], history: &mut [u64])
    requires tags_len { (length tags.now ≡ length bits.now) × ((e.at + e.count ≤ length bits.now) × (r.used + (e.count + 1) ≤ length history.old)) }
    requires fields { Fields r tags.now }
    ensures { history.new ≡ splice history.old r.used (record_of r (cells bits.now tags.now) e) }
{
    let at = e.at;
    let count = e.count;
    let used = r.used;
    // Stays: by number, since at each the address, the tag and the bits are read and a place is written: with `iter_mut` and `enumerate` it reads no plainer.
    for i in 0..count {
        let address = at + i;
        history[used + i] = records::cell_place(address, tags[address], bits[address]);
    }
    let last = used + count;
    history[last] = records::step_place(r.pc, r.sp, r.fbr, count);
}

// How many bytes of the output are written after what is shown.
fn written_after(shows: Option<u8>, written: usize) -> usize
    requires { written ≤ max_output }
    ensures { result ≡ written_after shows written }
{
    match shows {
        None => written,
        Some(_) => written + 1,
    }
}

// The registers after the effect, with these places used and so many steps kept.
fn registers_with(r: Registers, e: Effect, used: usize, kept: usize) -> Registers
    requires { r.written ≤ max_output }
    ensures { result ≡ registers_with r e used kept }
{
    Registers {
        pc: e.pc,
        sp: e.sp,
        fbr: e.fbr,
        halt: e.halt,
        used,
        kept,
        written: written_after(e.shows, r.written),
        ..r
    }
}

// "8: H above 0 and fewer than (cells written + 1) places free", and then the record, where there is a history.
fn keep(r: Registers, e: Effect, bits: &[u32], tags: &[u8], history: &mut [u64]) -> Step
    requires { Fits r e (cells bits.now tags.now) history.old }
    ensures value { result ≡ (committed r (memory bits.now tags.now history.old []) e).answer }
    ensures history_after { history.new ≡ (committed r (memory bits.now tags.now history.old []) e).memory.history }
{
    let used = r.used;
    if r.h == 0 {
        return Step::Next(registers_with(r, e, used, r.kept));
    }
    let needed = e.count + 1;
    if r.h - used < needed {
        return Step::Refused(MachineRefusal::HistoryFull);
    }
    add_record(r, e, bits, tags, history);
    Step::Next(registers_with(r, e, used + needed, r.kept + 1))
}

// Carries out an effect, where there is room for its record: keeps what it overwrites, then writes its cells. Whatever the output is, what the effect shows is
// left to be written.
pub(crate) fn commit(
    r: Registers,
    e: Effect,
    bits: &mut [u32],
    tags: &mut [u8],
    history: &mut [u64],
) -> Step
    requires { Fits r e (cells bits.old tags.old) history.old }
    ensures { (o : List ℕ) → stepped result bits.new tags.new history.new (output_by e.shows result r.written o) ≡ committed r (memory bits.old tags.old history.old o) e }
{
    let next = keep(r, e, bits, tags, history);
    match next {
        Step::Refused(refusal) => Step::Refused(refusal),
        Step::Next(registers) => {
            put(e, bits, tags);
            Step::Next(registers)
        }
    }
}
