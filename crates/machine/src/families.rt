// The instructions by families: those of one family take the same values and refuse the same. Each asks in the order of the numbers 4 to 7, once it is
// known that its values are there; SWAP, which looks at none, asks 3 for itself.
ghost use Rattle.std.specs.Prelude.{◌≡◌, ◌-◌, ◌≤◌, ℤ};
ghost use Rattle.rules.specs.Words.{word, in_word as within_word};
ghost use Rattle.rules.specs.Cells.{Cells, cell_at};
ghost use Rattle.rules.specs.Actions.{swap, sums, ints, divides, floats, compare_floats, one, to_float, to_int, same_value, agree, equal, is_nil, pop_sp, pop_fbr, jump_c, jump_ind, jsr_ind, write_ch};
ghost use Rattle.machine.specs.Families.{on_pair, on_top, on_operand};
ghost use Rattle.machine.specs.Small.{Small};
ghost use Rattle.rules.specs.Step.{in_stack};
ghost use Rattle.machine.specs.Plan.{planned, Means};

use crate::cells::{float_cell, int_cell, memory_cell};
use crate::plans::Planned;
use crate::{addresses, plans};
use rules::{Cell, MachineRefusal, Registers, tags};

pub(crate) fn on_swap(r: Registers) -> Planned
    requires { Small r }
    ensures { (c : Cells) → planned r c result ≡ in_stack r (on_pair swap r (cell_at c (record { 0 = r.sp - 2 })) (cell_at c (record { 0 = r.sp - 1 }))) }
{
    if r.sp < 2 {
        return Err(MachineRefusal::TooFewValues);
    }
    plans::swapped(r)
}

// Two INTs, and an INT as the result.
pub(crate) fn on_ints(v: u32, r: Registers, below: Cell, top: Cell) -> Planned
    requires { Small r × (2 ≤ r.sp) }
    ensures { Means r result (on_pair (ints (λ b t. v)) r below top) }
{
    if below.tag != tags::INT {
        return Err(MachineRefusal::WrongTag);
    }
    if top.tag != tags::INT {
        return Err(MachineRefusal::WrongTag);
    }
    plans::result(r, 2, int_cell(v))
}

// Two INTs, or an MA below an INT. The bits are those of an exact result, and `in_word` tells whether a word stands for it: where none does, two INTs
// wrap, and an MA is refused.
pub(crate) fn on_sums(bits: u32, in_word: bool, r: Registers, below: Cell, top: Cell) -> Planned
    requires { Small r × (2 ≤ r.sp) }
    ensures { (z : ℤ) → bits ≡ word z → in_word ≡ within_word z → Means r result (on_pair (sums (λ b t. z)) r below top) }
{
    if below.tag == tags::INT {
        return on_ints(bits, r, below, top);
    }
    if top.tag != tags::INT {
        return Err(MachineRefusal::WrongTag);
    }
    if below.tag != tags::MA {
        return Err(MachineRefusal::WrongTag);
    }
    if !in_word {
        return Err(MachineRefusal::BadAddress);
    }
    plans::result(r, 2, memory_cell(bits))
}

// Two INTs, the top one not zero.
pub(crate) fn on_divides(v: u32, r: Registers, below: Cell, top: Cell) -> Planned
    requires { Small r × (2 ≤ r.sp) }
    ensures { Means r result (on_pair (divides (λ b t. v)) r below top) }
{
    if below.tag != tags::INT {
        return Err(MachineRefusal::WrongTag);
    }
    if top.tag != tags::INT {
        return Err(MachineRefusal::WrongTag);
    }
    if top.bits == 0 {
        return Err(MachineRefusal::NoResult);
    }
    plans::result(r, 2, int_cell(v))
}

// Two FLOATs, and a FLOAT as the result.
// Stays: the body of `on_ints` with another tag and cell, since one function of a tag would promise for each tag what it means there, which is no plainer.
pub(crate) fn on_floats(v: u32, r: Registers, below: Cell, top: Cell) -> Planned
    requires { Small r × (2 ≤ r.sp) }
    ensures { Means r result (on_pair (floats (λ b t. v)) r below top) }
{
    if below.tag != tags::FLOAT {
        return Err(MachineRefusal::WrongTag);
    }
    if top.tag != tags::FLOAT {
        return Err(MachineRefusal::WrongTag);
    }
    plans::result(r, 2, float_cell(v))
}

// Two FLOATs, neither a NaN, and an INT as the result.
pub(crate) fn on_compare_floats(r: Registers, below: Cell, top: Cell) -> Planned
    requires { Small r × (2 ≤ r.sp) }
    ensures { Means r result (on_pair compare_floats r below top) }
{
    if below.tag != tags::FLOAT {
        return Err(MachineRefusal::WrongTag);
    }
    if top.tag != tags::FLOAT {
        return Err(MachineRefusal::WrongTag);
    }
    if floats::unordered(below.bits, top.bits) {
        return Err(MachineRefusal::NoResult);
    }
    plans::result(r, 2, int_cell(floats::ordered_f(below.bits, top.bits)))
}

// One INT, and an INT as the result.
pub(crate) fn on_int(v: u32, r: Registers, top: Cell) -> Planned
    requires { Small r × (1 ≤ r.sp) }
    ensures { Means r result (on_top (one (λ t. v)) r top) }
{
    if top.tag != tags::INT {
        return Err(MachineRefusal::WrongTag);
    }
    plans::result(r, 1, int_cell(v))
}

// An INT, and the nearest FLOAT as the result.
pub(crate) fn on_to_float(r: Registers, top: Cell) -> Planned
    requires { Small r × (1 ≤ r.sp) }
    ensures { Means r result (on_top to_float r top) }
{
    if top.tag != tags::INT {
        return Err(MachineRefusal::WrongTag);
    }
    let v = floats::conversions::int_to_f(top.bits);
    plans::result(r, 1, float_cell(v))
}

// A FLOAT that is cut to an INT, and that INT as the result.
pub(crate) fn on_to_int(r: Registers, top: Cell) -> Planned
    requires { Small r × (1 ≤ r.sp) }
    ensures { Means r result (on_top to_int r top) }
{
    if top.tag != tags::FLOAT {
        return Err(MachineRefusal::WrongTag);
    }
    if !floats::conversions::has_int(top.bits) {
        return Err(MachineRefusal::NoResult);
    }
    let v = floats::conversions::cut(top.bits);
    plans::result(r, 1, int_cell(v))
}

// Whether two words that both have the tag are the same value: FLOATs by IEEE 754, others by their bits.
fn same_value(tag: u8, b: u32, t: u32) -> bool
    ensures { result ≡ same_value tag b t }
{
    if tag == tags::FLOAT {
        floats::equal_f(b, t)
    } else {
        b == t
    }
}

// Whether two cells agree in tag and value.
fn agree(below: Cell, top: Cell) -> bool
    ensures { result ≡ agree below top }
{
    below.tag == top.tag && same_value(below.tag, below.bits, top.bits)
}

pub(crate) fn on_equal(r: Registers, below: Cell, top: Cell) -> Planned
    requires { Small r × (2 ≤ r.sp) }
    ensures { Means r result (on_pair equal r below top) }
{
    let v = word::tests::bit(agree(below, top));
    plans::result(r, 2, int_cell(v))
}

pub(crate) fn on_is_nil(r: Registers, top: Cell) -> Planned
    requires { Small r × (1 ≤ r.sp) }
    ensures { Means r result (on_top is_nil r top) }
{
    let v = word::tests::bit(same_value(top.tag, top.bits, 0));
    plans::result(r, 1, int_cell(v))
}

// An MA in 0..N-1 becomes SP.
pub(crate) fn on_pop_sp(r: Registers, top: Cell) -> Planned
    requires { Small r × (1 ≤ r.sp) }
    ensures { Means r result (on_top pop_sp r top) }
{
    if top.tag != tags::MA {
        return Err(MachineRefusal::WrongTag);
    }
    if !addresses::inside(top.bits, r.n) {
        return Err(MachineRefusal::BadAddress);
    }
    plans::moved(r, r.sp - 1, addresses::memory_address(top.bits))
}

// An MA in 0..N-1 becomes FBR.
pub(crate) fn on_pop_fbr(r: Registers, top: Cell) -> Planned
    requires { Small r × (1 ≤ r.sp) }
    ensures { Means r result (on_top pop_fbr r top) }
{
    if top.tag != tags::MA {
        return Err(MachineRefusal::WrongTag);
    }
    if !addresses::inside(top.bits, r.n) {
        return Err(MachineRefusal::BadAddress);
    }
    plans::framed(r, addresses::memory_address(top.bits))
}

// An INT, by which the jump is made or not.
pub(crate) fn on_jump_c(r: Registers, target: u32, top: Cell) -> Planned
    requires { Small r × (1 ≤ r.sp) }
    ensures { Means r result (on_operand jump_c r target top) }
{
    if top.tag != tags::INT {
        return Err(MachineRefusal::WrongTag);
    }
    if top.bits == 0 {
        return plans::jumped(r, 1, (r.pc + 1) as u32);
    }
    plans::jumped(r, 1, target)
}

pub(crate) fn on_jump_ind(r: Registers, top: Cell) -> Planned
    requires { Small r × (1 ≤ r.sp) }
    ensures { Means r result (on_top jump_ind r top) }
{
    if top.tag != tags::PA {
        return Err(MachineRefusal::WrongTag);
    }
    plans::jumped(r, 1, top.bits)
}

pub(crate) fn on_jsr_ind(r: Registers, top: Cell) -> Planned
    requires { Small r × (1 ≤ r.sp) }
    ensures { Means r result (on_top jsr_ind r top) }
{
    if top.tag != tags::PA {
        return Err(MachineRefusal::WrongTag);
    }
    plans::called(r, 1, top.bits)
}

// A CH is popped, and shown.
pub(crate) fn on_write_ch(r: Registers, top: Cell) -> Planned
    requires { Small r × (1 ≤ r.sp) }
    ensures { Means r result (on_top write_ch r top) }
{
    if top.tag != tags::CH {
        return Err(MachineRefusal::WrongTag);
    }
    plans::shown(r, top.bits)
}
