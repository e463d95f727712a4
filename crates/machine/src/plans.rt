// Plans: what an instruction decides, 3 to 7 in order, before anything is written. What a plan means as a decision of the rules says specs/Plan.antt. Each maker below makes the plan of the effect that has its name in the rules.
ghost use Rattle.std.specs.Prelude.{◌≡◌, ◌-◌, ◌≤◌};
ghost use Rattle.rules.specs.Cells.{Cells, cell_at};
ghost use Rattle.rules.specs.Effects.{result as pushed_result, swapped, stored, moved, framed, linked, jumped, called, shown, halted, program_address};
ghost use Rattle.machine.specs.Small.{Small};
ghost use Rattle.rules.specs.Step.{in_stack};
ghost use Rattle.machine.specs.Plan.{planned, Means};

use rules::{Cell, MachineRefusal, MemoryAddress, ProgramAddress, Registers};

// An instruction that is accepted, with what it needs to be carried out: the new SP, an address of cells, a cell to write, a target, a character.
#[derive(Clone, Copy)]
pub enum Plan {
    Jump { sp: usize, target: ProgramAddress },
    Move { sp: usize, from: usize },
    Frame { sp: usize, fbr: MemoryAddress },
    Halt,
    Push { at: usize, cell: Cell },
    Store { sp: usize, at: MemoryAddress },
    Call { at: usize, target: ProgramAddress },
    Link,
    Swap,
    Fill { sp: usize, from: usize },
    Show { sp: usize, character: u32 },
}

// A plan, or a refusal from 3 to 7: the last where "new SP would be N or more".
// Stays: each maker asks for `Small r`: with a type for such registers it would read `r.registers.sp` wherever it reads `r.sp`.
pub(crate) type Planned = Result<Plan, MachineRefusal>;

// A cell is pushed, where SP stays below N.
pub(crate) fn pushed(r: Registers, c: Cell) -> Planned
    requires { Small r }
    ensures { Means r result (Ok (pushed_result r 0 c)) }
{
    if r.n <= r.sp + 1 {
        return Err(MachineRefusal::StackFull);
    }
    Ok(Plan::Push { at: r.sp, cell: c })
}

// `popped` values are popped and a cell is pushed: SP does not rise.
pub(crate) fn result(r: Registers, popped: usize, c: Cell) -> Planned
    requires { Small r × (1 ≤ popped) × (popped ≤ r.sp) }
    ensures { Means r result (Ok (pushed_result r popped c)) }
{
    Ok(Plan::Push {
        at: r.sp - popped,
        cell: c,
    })
}

// The two top values change places.
pub(crate) fn swapped(r: Registers) -> Planned
    requires { Small r }
    ensures { (c : Cells) → planned r c result ≡ in_stack r (Ok (swapped r (cell_at c (record { 0 = r.sp - 2 })) (cell_at c (record { 0 = r.sp - 1 })))) }
{
    Ok(Plan::Swap)
}

// `popped` values are popped and the top is stored.
pub(crate) fn stored(r: Registers, popped: usize, a: MemoryAddress) -> Planned
    requires { Small r × (popped ≤ r.sp) }
    ensures { (c : Cells) → planned r c result ≡ in_stack r (Ok (stored r popped a (cell_at c (record { 0 = r.sp - 1 })))) }
{
    Ok(Plan::Store {
        sp: r.sp - popped,
        at: a,
    })
}

// SP moves from `popped` to an address below N; the cells between are zeroed where it moves up.
pub(crate) fn moved(r: Registers, popped: usize, a: MemoryAddress) -> Planned
    requires { Small r × (popped ≤ r.sp) }
    ensures { Means r result (Ok (moved r popped a)) }
{
    if a.0 <= popped {
        return Ok(Plan::Move {
            sp: a.0,
            from: popped,
        });
    }
    if r.n <= a.0 {
        return Err(MachineRefusal::StackFull);
    }
    Ok(Plan::Fill {
        sp: a.0,
        from: popped,
    })
}

// FBR is set from the popped top.
pub(crate) fn framed(r: Registers, a: MemoryAddress) -> Planned
    requires { Small r × (1 ≤ r.sp) }
    ensures { Means r result (Ok (framed r a)) }
{
    Ok(Plan::Frame {
        sp: r.sp - 1,
        fbr: a,
    })
}

// The old FBR is pushed, where SP stays below N, and FBR is the old SP.
pub(crate) fn linked(r: Registers) -> Planned
    requires { Small r }
    ensures { Means r result (Ok (linked r)) }
{
    if r.n <= r.sp + 1 {
        return Err(MachineRefusal::StackFull);
    }
    Ok(Plan::Link)
}

// `popped` values are popped, and PC is set.
pub(crate) fn jumped(r: Registers, popped: usize, target: u32) -> Planned
    requires { Small r × (popped ≤ r.sp) }
    ensures { Means r result (Ok (jumped r popped (program_address target))) }
{
    Ok(Plan::Jump {
        sp: r.sp - popped,
        target: ProgramAddress(target as usize),
    })
}

// `popped` values are popped, PC is set, and the address after the call is pushed, where SP stays below N.
pub(crate) fn called(r: Registers, popped: usize, target: u32) -> Planned
    requires { Small r × (popped ≤ r.sp) }
    ensures { Means r result (Ok (called r popped (program_address target))) }
{
    let at = r.sp - popped;
    if r.n <= at + 1 {
        return Err(MachineRefusal::StackFull);
    }
    Ok(Plan::Call {
        at,
        target: ProgramAddress(target as usize),
    })
}

// The top is popped, and its bits are shown.
pub(crate) fn shown(r: Registers, character: u32) -> Planned
    requires { Small r × (1 ≤ r.sp) }
    ensures { Means r result (Ok (shown r character)) }
{
    Ok(Plan::Show {
        sp: r.sp - 1,
        character,
    })
}

// HALT is set, and PC stays.
pub(crate) fn halted(r: Registers) -> Planned
    requires { Small r }
    ensures { Means r result (Ok (halted r)) }
{
    Ok(Plan::Halt)
}
