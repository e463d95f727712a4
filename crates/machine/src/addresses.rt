// Addresses of cells: "MA bits are read as two's complement", and the offsets from FBR; and the instructions that read or store by them.
ghost use Rattle.std.specs.Prelude.{◌≡◌, ◌-◌, ◌≤◌, ◌<◌, pos, ◌+ℤ◌};
ghost use Rattle.rules.specs.Words.{signed};
ghost use Rattle.rules.specs.Cells.{Cells, cell_at};
ghost use Rattle.rules.specs.Tags.{int};
ghost use Rattle.rules.specs.Effects.{memory_address};
ghost use Rattle.rules.specs.Decide.{on_values};
ghost use Rattle.rules.specs.Actions.{inside, add_sp, push_ind, store_ind, push_off, store_off};
ghost use Rattle.machine.specs.Families.{on_pair, on_operand};
ghost use Rattle.machine.specs.Small.{Small};
ghost use Rattle.machine.specs.Stack.{cells_of, top, second};
ghost use Rattle.rules.specs.Step.{in_stack};
ghost use Rattle.machine.specs.Plan.{planned, Means};
ghost use Rattle.machine.specs.Reach.{reach_of};

use crate::plans;
use crate::plans::Planned;
use crate::stack::Stack;
use rules::{Cell, MachineRefusal, MemoryAddress, Registers, tags, words};

// Whether the bits are an address at least 0 and below the limit.
pub(crate) fn inside(bits: u32, limit: usize) -> bool
    ensures { result ≡ inside (signed bits) limit }
{
    if words::LOWEST <= bits {
        return false;
    }
    (bits as usize) < limit
}

// The address that the bits stand for, and 0 for a number below 0.
pub(crate) fn memory_address(bits: u32) -> MemoryAddress
    ensures { result ≡ memory_address (signed bits) }
{
    if words::LOWEST <= bits {
        return MemoryAddress(0);
    }
    MemoryAddress(bits as usize)
}

// Where an offset, whose bits are read as two's complement, leads from a base: nowhere where that is below 0.
pub(crate) fn moved_by(base: usize, offset: u32) -> Option<MemoryAddress>
    requires { base < 65536 }
    ensures { result ≡ reach_of (pos base +ℤ signed offset) }
{
    if offset < words::LOWEST {
        return Some(MemoryAddress(base + offset as usize));
    }
    let back = (words::MINUS_ONE - offset) as usize + 1;
    if base < back {
        return None;
    }
    Some(MemoryAddress(base - back))
}

// SP moves by a number; below 0 there are too few values.
pub(crate) fn on_add_sp(r: Registers, offset: u32) -> Planned
    requires { Small r }
    ensures { Means r result (on_operand add_sp r offset (int 0)) }
{
    match moved_by(r.sp, offset) {
        Some(a) => plans::moved(r, r.sp, a),
        None => Err(MachineRefusal::TooFewValues),
    }
}

// The cell at an MA below SP-1 takes the MA's place.
pub(crate) fn on_push_ind(s: Stack<'_, '_>) -> Planned
    ensures { Means s.entry.r result (on_values s.entry.r (cells_of s.entry) 0 (int 0) (top s.entry) push_ind) }
{
    let r = s.r;
    if r.sp < 1 {
        return Err(MachineRefusal::TooFewValues);
    }
    let top = s.top();
    if top.tag != tags::MA {
        return Err(MachineRefusal::WrongTag);
    }
    if !inside(top.bits, r.sp - 1) {
        return Err(MachineRefusal::BadAddress);
    }
    plans::result(r, 1, s.cell_at(memory_address(top.bits)))
}

// The top is stored at the MA below it.
pub(crate) fn on_store_ind(s: Stack<'_, '_>) -> Planned
    ensures { (c : Cells) → planned s.entry.r c result ≡ in_stack s.entry.r (on_pair store_ind s.entry.r (second s.entry) (cell_at c (record { 0 = s.entry.r.sp - 1 }))) }
{
    let r = s.r;
    if r.sp < 2 {
        return Err(MachineRefusal::TooFewValues);
    }
    let below = s.second();
    if below.tag != tags::MA {
        return Err(MachineRefusal::WrongTag);
    }
    if !inside(below.bits, r.sp - 2) {
        return Err(MachineRefusal::BadAddress);
    }
    plans::stored(r, 2, memory_address(below.bits))
}

// The cell at FBR and an offset is pushed.
pub(crate) fn on_push_off(s: Stack<'_, '_>, offset: u32) -> Planned
    ensures { Means s.entry.r result (on_values s.entry.r (cells_of s.entry) offset (int 0) (int 0) push_off) }
{
    let r = s.r;
    match moved_by(r.fbr, offset) {
        Some(a) if a.0 < r.sp => plans::pushed(r, s.cell_at(a)),
        _ => Err(MachineRefusal::BadAddress),
    }
}

// The top is stored at FBR and an offset.
pub(crate) fn on_store_off(r: Registers, offset: u32) -> Planned
    requires { Small r }
    ensures { (c : Cells) → planned r c result ≡ in_stack r (on_operand store_off r offset (cell_at c (record { 0 = r.sp - 1 }))) }
{
    if r.sp < 1 {
        return Err(MachineRefusal::TooFewValues);
    }
    match moved_by(r.fbr, offset) {
        Some(a) if a.0 < r.sp - 1 => plans::stored(r, 1, a),
        _ => Err(MachineRefusal::BadAddress),
    }
}
