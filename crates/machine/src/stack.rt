// What an instruction reads: the registers, and the cells as they stand.
ghost use Rattle.std.specs.Prelude.{◌≡◌, ◌-◌, ◌≤◌, ◌<◌, length};
ghost use Rattle.machine.specs.Small.{Small};
ghost use Rattle.machine.specs.Live.{Live};

use crate::plans::Planned;
use rules::{Cell, MachineRefusal, MemoryAddress, Registers};

// In a sound state the registers are small, and SP lies among the cells, of which each has a tag.
#[derive(Clone, Copy)]
pub(crate) struct Stack<'b, 't> {
    pub r: Registers,
    pub bits: &'b [u32],
    pub tags: &'t [u8],
    ghost small: { Small r },
    ghost live: { Live r bits.now tags.now },
}

impl Stack<'_, '_> {
    ghost use Rattle.rules.specs.Cells.{cell_at};
    ghost use Rattle.machine.specs.Stack.{cells_of, top, second};

    // The cell at an address.
    pub(crate) fn cell_at(self, a: MemoryAddress) -> Cell
        requires { a.0 < length self.bits.now }
        ensures { result ≡ cell_at (cells_of self.entry) a }
    {
        Cell {
            bits: self.bits[a.0],
            tag: self.tags[a.0],
        }
    }

    // The address `popped` below SP; where there are fewer values, 0.
    pub(crate) fn below_sp(self, popped: usize) -> MemoryAddress
        ensures { result.0 ≡ self.entry.r.sp - popped }
    {
        MemoryAddress(self.r.sp.saturating_sub(popped))
    }

    // The top value; where there is none, the cell at 0.
    pub(crate) fn top(self) -> Cell
        ensures { result ≡ top self.entry }
    {
        self.cell_at(self.below_sp(1))
    }

    // The value below the top; where there is none, the cell at 0.
    pub(crate) fn second(self) -> Cell
        ensures { result ≡ second self.entry }
    {
        self.cell_at(self.below_sp(2))
    }

    // What is decided of the top value, where there is one.
    pub(crate) fn one<F: FnOnce(Cell) -> Planned>(self, decided: F) -> Planned
        requires { 1 ≤ self.r.sp → F.pre decided (top self) }
        ensures few { self.entry.r.sp < 1 → result ≡ Err MachineRefusal.TooFewValues }
        ensures values { 1 ≤ self.entry.r.sp → F.post decided (top self.entry) result }
    {
        if self.r.sp < 1 {
            return Err(MachineRefusal::TooFewValues);
        }
        decided(self.top())
    }

    // What is decided of the two top values, where there are two.
    pub(crate) fn two<F: FnOnce(Cell, Cell) -> Planned>(self, decided: F) -> Planned
        requires { 2 ≤ self.r.sp → F.pre decided (second self) (top self) }
        ensures few { self.entry.r.sp < 2 → result ≡ Err MachineRefusal.TooFewValues }
        ensures values { 2 ≤ self.entry.r.sp → F.post decided (second self.entry) (top self.entry) result }
    {
        if self.r.sp < 2 {
            return Err(MachineRefusal::TooFewValues);
        }
        decided(self.second(), self.top())
    }
}
