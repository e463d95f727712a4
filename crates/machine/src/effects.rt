// The effect of each plan, as specs/Plan.antt has it. Nothing is written here. `Small r` is asked for as in plans.rt.
ghost use Rattle.std.specs.Prelude.{◌≡◌, ◌-◌, ◌+◌, ◌<◌};
ghost use Rattle.rules.specs.Effects.{nothing, cell, effect};
ghost use Rattle.machine.specs.Spans.{cell_span, byte_span};
ghost use Rattle.machine.specs.Small.{Small};
ghost use Rattle.machine.specs.Stack.{cells_of};
ghost use Rattle.machine.specs.Plan.{zeros_at, jumps, moves, frames, halts, pushes, stores, calls, links, swaps, fills, shows};

use crate::cells;
use crate::cells::INT_ZERO;
use crate::stack::Stack;
use rules::{Cell, Effect, MemoryAddress, ProgramAddress, Registers};

// No cell is written.
fn writing_none(pc: usize, sp: usize, fbr: usize, halt: usize) -> Effect
    ensures { result ≡ effect pc sp fbr halt nothing }
{
    Effect {
        pc,
        sp,
        fbr,
        halt,
        at: 0,
        count: 0,
        first: INT_ZERO,
        second: INT_ZERO,
        shows: None,
    }
}

// PC is the planned address.
pub(crate) fn jumps(r: Registers, sp: usize, target: ProgramAddress) -> Effect
    ensures { result ≡ jumps r sp target }
{
    writing_none(target.0, sp, r.fbr, 0)
}

// FBR is the address.
pub(crate) fn frames(r: Registers, sp: usize, fbr: MemoryAddress) -> Effect
    requires { Small r }
    ensures { result ≡ frames r sp fbr }
{
    writing_none(r.pc + 1, sp, fbr.0, 0)
}

// HALT is set.
pub(crate) fn halts(r: Registers) -> Effect
    ensures { result ≡ halts r }
{
    writing_none(r.pc, r.sp, r.fbr, 1)
}

// One cell is written.
fn writing_one(pc: usize, sp: usize, fbr: usize, at: usize, c: Cell) -> Effect
    ensures { result ≡ effect pc sp fbr 0 (cell at c) }
{
    Effect {
        at,
        count: 1,
        first: c,
        ..writing_none(pc, sp, fbr, 0)
    }
}

// The cell is pushed, at the address.
pub(crate) fn pushes(r: Registers, at: usize, c: Cell) -> Effect
    requires { Small r × (at < cell_span) }
    ensures { result ≡ pushes r at c }
{
    writing_one(r.pc + 1, at + 1, r.fbr, at, c)
}

// The top is stored at the address.
pub(crate) fn stores(s: Stack<'_, '_>, sp: usize, at: MemoryAddress) -> Effect
    ensures { result ≡ stores s.entry.r (cells_of s.entry) sp at }
{
    writing_one(s.r.pc + 1, sp, s.r.fbr, at.0, s.top())
}

// PC is the planned address, and the address after the call is pushed.
pub(crate) fn calls(r: Registers, at: usize, target: ProgramAddress) -> Effect
    requires { Small r × (at < cell_span) }
    ensures { result ≡ calls r at target }
{
    let next = r.pc + 1;
    let c = cells::program_cell(next as u32);
    writing_one(target.0, at + 1, r.fbr, at, c)
}

// The old FBR is pushed, and FBR is the old SP.
pub(crate) fn links(r: Registers) -> Effect
    requires { Small r }
    ensures { result ≡ links r }
{
    let c = cells::memory_cell(r.fbr as u32);
    writing_one(r.pc + 1, r.sp + 1, r.sp, r.sp, c)
}

// The two top values change places.
pub(crate) fn swaps(s: Stack<'_, '_>) -> Effect
    ensures { result ≡ swaps s.entry.r (cells_of s.entry) }
{
    Effect {
        at: s.below_sp(2).0,
        count: 2,
        first: s.top(),
        second: s.second(),
        ..writing_none(s.r.pc + 1, s.r.sp, s.r.fbr, 0)
    }
}

// SP moves, and so many cells from the address on become INT 0.
fn writing_zeros(r: Registers, sp: usize, at: usize, count: usize) -> Effect
    requires { Small r }
    ensures { result ≡ effect (r.pc + 1) sp r.fbr 0 (zeros_at at count) }
{
    Effect {
        at,
        count,
        ..writing_none(r.pc + 1, sp, r.fbr, 0)
    }
}

// SP moves down.
pub(crate) fn moves(r: Registers, sp: usize, from: usize) -> Effect
    requires { Small r }
    ensures { result ≡ moves r sp from }
{
    writing_zeros(r, sp, from, 0)
}

// SP moves up, and what lies between is INT 0.
pub(crate) fn fills(r: Registers, sp: usize, from: usize) -> Effect
    requires { Small r }
    ensures { result ≡ fills r sp from }
{
    writing_zeros(r, sp, from, sp.saturating_sub(from))
}

// The planned character is shown, and no cell is written.
pub(crate) fn shows(r: Registers, sp: usize, character: u32) -> Effect
    requires { Small r × (character < byte_span) }
    ensures { result ≡ shows r sp character }
{
    Effect {
        shows: Some(character as u8),
        ..writing_none(r.pc + 1, sp, r.fbr, 0)
    }
}
