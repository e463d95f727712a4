// What the instruction at a table's place decides: the one dispatch over the codes, each to its family. Cells are read where they are used.
ghost use Rattle.std.specs.Prelude.{◌≡◌, true, ℕ, ◌≤◌, ◌<◌};
ghost use Rattle.rules.specs.Instructions.{codes, action_of};
ghost use Rattle.rules.specs.Table.{code_of};
ghost use Rattle.rules.specs.Decide.{decide};
ghost use Rattle.rules.specs.Step.{decide_at, in_stack};
ghost use Rattle.machine.specs.Stack.{cells_of};
ghost use Rattle.machine.specs.Plan.{planned};

use crate::families::{
    on_compare_floats, on_divides, on_equal, on_floats, on_int, on_ints, on_is_nil, on_jsr_ind,
    on_jump_c, on_jump_ind, on_pop_fbr, on_pop_sp, on_sums, on_swap, on_to_float, on_to_int,
    on_write_ch,
};
use crate::plans::Planned;
use crate::stack::Stack;
use crate::{addresses, cells, plans};
use floats::{minus_f, plus_f, quotient_f, times_f};
use rules::codes;
use word::bits::{bit_and, bit_nand, bit_nor, bit_not, bit_or, bit_xor};
use word::integers::{minus, minus_in_word, plus, plus_in_word, quotient, remainder, times};
use word::logic::{and, nand, nor, not, or, xor};
use word::tests::{greater, is_neg, is_pos, less, ordered};

// A code with its operand.
// Stays: a match on the codes, since the table has them as numbers; what an arm does with the values it hands on as a closure.
fn by_code(code: usize, n: u32, s: Stack<'_, '_>) -> Planned
    requires { code < codes }
    ensures { planned s.entry.r (cells_of s.entry) result ≡ in_stack s.entry.r (decide s.entry.r (cells_of s.entry) n (action_of code)) }
{
    let r = s.r;
    match code {
        codes::STOP => plans::halted(r),
        codes::PUSHIMM => plans::pushed(r, cells::int_cell(n)),
        codes::PUSHIMMF => plans::pushed(r, cells::float_cell(n)),
        codes::DUP => s.one(|top| plans::pushed(r, top)),
        codes::SWAP => on_swap(r),
        codes::ADD => s.two(|b, t| on_sums(
            plus(b.bits, t.bits),
            plus_in_word(b.bits, t.bits),
            r,
            b,
            t,
        )),
        codes::SUB => s.two(|b, t| on_sums(
            minus(b.bits, t.bits),
            minus_in_word(b.bits, t.bits),
            r,
            b,
            t,
        )),
        codes::TIMES => s.two(|b, t| on_ints(times(b.bits, t.bits), r, b, t)),
        codes::DIV => s.two(|b, t| on_divides(quotient(b.bits, t.bits), r, b, t)),
        codes::MOD => s.two(|b, t| on_divides(remainder(b.bits, t.bits), r, b, t)),
        codes::ADDF => s.two(|b, t| on_floats(plus_f(b.bits, t.bits), r, b, t)),
        codes::SUBF => s.two(|b, t| on_floats(minus_f(b.bits, t.bits), r, b, t)),
        codes::TIMESF => s.two(|b, t| on_floats(times_f(b.bits, t.bits), r, b, t)),
        codes::DIVF => s.two(|b, t| on_floats(quotient_f(b.bits, t.bits), r, b, t)),
        codes::AND => s.two(|b, t| on_ints(and(b.bits, t.bits), r, b, t)),
        codes::OR => s.two(|b, t| on_ints(or(b.bits, t.bits), r, b, t)),
        codes::NAND => s.two(|b, t| on_ints(nand(b.bits, t.bits), r, b, t)),
        codes::NOR => s.two(|b, t| on_ints(nor(b.bits, t.bits), r, b, t)),
        codes::XOR => s.two(|b, t| on_ints(xor(b.bits, t.bits), r, b, t)),
        codes::NOT => s.one(|top| on_int(not(top.bits), r, top)),
        codes::BITAND => s.two(|b, t| on_ints(bit_and(b.bits, t.bits), r, b, t)),
        codes::BITOR => s.two(|b, t| on_ints(bit_or(b.bits, t.bits), r, b, t)),
        codes::BITNAND => s.two(|b, t| on_ints(bit_nand(b.bits, t.bits), r, b, t)),
        codes::BITNOR => s.two(|b, t| on_ints(bit_nor(b.bits, t.bits), r, b, t)),
        codes::BITXOR => s.two(|b, t| on_ints(bit_xor(b.bits, t.bits), r, b, t)),
        codes::BITNOT => s.one(|top| on_int(bit_not(top.bits), r, top)),
        codes::CMP => s.two(|b, t| on_ints(ordered(b.bits, t.bits), r, b, t)),
        codes::CMPF => s.two(|b, t| on_compare_floats(r, b, t)),
        codes::GREATER => s.two(|b, t| on_ints(greater(b.bits, t.bits), r, b, t)),
        codes::LESS => s.two(|b, t| on_ints(less(b.bits, t.bits), r, b, t)),
        codes::EQUAL => s.two(|b, t| on_equal(r, b, t)),
        codes::ISNIL => s.one(|top| on_is_nil(r, top)),
        codes::ISPOS => s.one(|top| on_int(is_pos(top.bits), r, top)),
        codes::ISNEG => s.one(|top| on_int(is_neg(top.bits), r, top)),
        codes::PUSHSP => plans::pushed(r, cells::memory_cell(r.sp as u32)),
        codes::POPSP => s.one(|top| on_pop_sp(r, top)),
        codes::PUSHFBR => plans::pushed(r, cells::memory_cell(r.fbr as u32)),
        codes::POPFBR => s.one(|top| on_pop_fbr(r, top)),
        codes::LINK => plans::linked(r),
        codes::ADDSP => addresses::on_add_sp(r, n),
        codes::PUSHIND => addresses::on_push_ind(s),
        codes::STOREIND => addresses::on_store_ind(s),
        codes::PUSHOFF => addresses::on_push_off(s, n),
        codes::STOREOFF => addresses::on_store_off(r, n),
        codes::JUMP => plans::jumped(r, 0, n),
        codes::JUMPC => s.one(|top| on_jump_c(r, n, top)),
        codes::JUMPIND => s.one(|top| on_jump_ind(r, top)),
        codes::JSR => plans::called(r, 0, n),
        codes::JSRIND => s.one(|top| on_jsr_ind(r, top)),
        codes::PUSHIMMPA => plans::pushed(r, cells::program_cell(n)),
        codes::ITOF => s.one(|top| on_to_float(r, top)),
        codes::FTOI => s.one(|top| on_to_int(r, top)),
        codes::PUSHIMMCH => plans::pushed(r, cells::character_cell(n)),
        codes::WRITECH => s.one(|top| on_write_ch(r, top)),
        // a code is below 54
        _ => unreachable!(),
    }
}

// The instruction at a table's place.
pub(crate) fn decide_at(place: u64, s: Stack<'_, '_>) -> Planned
    requires { code_of place < codes }
    ensures { planned s.entry.r (cells_of s.entry) result ≡ in_stack s.entry.r (decide_at s.entry.r (cells_of s.entry) place) }
{
    let code = program::table::code_of(place);
    let n = program::table::operand_of(place);
    by_code(code, n, s)
}
