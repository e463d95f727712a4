// The state between steps: whether a table, registers and lent slices are sound (document 01's 10, with what requests g and h add to it), and the reset.
#![tactic(auto)]

ghost use Rattle.std.specs.Prelude.{◌≡◌, length, replicate};
ghost use Rattle.rules.specs.Lists.{every};
ghost use Rattle.rules.specs.State.{memory, sound_cell, sound_cells, kept_sizes, kept_within, output_within, registers_within, range_tests, sound};
ghost use Rattle.rules.specs.Reset.{cleared, registers_begun, start_sizes, reset};
ghost use Rattle.program.specs.Lent.{program_of};
ghost use Rattle.state.specs.Lent.{lengths};
ghost use Rattle.state.specs.Outcomes.{started};

use program::Program;
use rules::{MachineRefusal, Registers, sizes, tags};

// The lengths of the slices that a call is lent.
#[derive(Clone, Copy)]
pub struct Lengths {
    pub bits: usize,
    pub tags: usize,
    pub history: usize,
    pub output: usize,
}

impl Lengths {
    // Stays: the lent slices one by one, since a struct of them needs a lifetime for each, is taken apart where it comes in and is made anew at each call, and C lends them one by one.
    // Those of these slices.
    pub fn of(bits: &[u32], tags: &[u8], history: &[u64], output: &[u8]) -> Lengths
        ensures { result ≡ lengths bits.now tags.now history.now output.now }
    {
        Lengths {
            bits: bits.len(),
            tags: tags.len(),
            history: history.len(),
            output: output.len(),
        }
    }

    // Whether a reset takes slices of these lengths: where not, it answers 11.
    pub fn are_start_sizes(self) -> bool
        ensures { result ≡ every (start_sizes self.bits self.tags self.history self.output) }
    {
        1 <= self.bits
            && self.bits <= sizes::MAX_CELLS
            && self.history <= sizes::MAX_HISTORY
            && self.tags == self.bits
            && self.output <= sizes::MAX_OUTPUT
    }

    // Whether N and H are within "Sizes", and cells, tags and history of them.
    fn are_kept_sizes(self, r: Registers) -> bool
        ensures { result ≡ every (kept_sizes r self.bits self.tags self.history) }
    {
        1 <= r.n
            && r.n <= sizes::MAX_CELLS
            && r.h <= sizes::MAX_HISTORY
            && self.bits == r.n
            && self.tags == r.n
            && self.history == r.h
    }
}

// Whether so many steps may be kept with so many places used.
fn has_kept_within(used: usize, kept: usize) -> bool
    ensures { result ≡ every (kept_within used kept) }
{
    kept <= used && (kept != 0 || used == 0)
}

// Whether SP, FBR, PC, HALT, U and the kept number are within their ranges, in a program of `count` instructions.
fn has_registers_within(r: Registers, count: usize) -> bool
    ensures { result ≡ every (registers_within count r) }
{
    r.sp < r.n
        && r.fbr < r.n
        && r.pc <= count
        && r.halt <= 1
        && r.used <= r.h
        && has_kept_within(r.used, r.kept)
}

// Whether so many bytes of an output of `output` bytes may be written.
fn has_output_within(written: usize, output: usize) -> bool
    ensures { result ≡ every (output_within written output) }
{
    output <= sizes::MAX_OUTPUT && written <= output
}

// Whether a cell may stand in a sound state: INT, FLOAT and MA, the tags below PA, hold any bits, a PA is at most the program's length, a CH at most the last
// character, and there is no other tag.
pub fn is_sound_cell(count: usize, tag: u8, bits: u32) -> bool
    ensures { result ≡ sound_cell count tag bits }
{
    // The tags below PA come first: so a cell of these takes the fewest instructions.
    match tag {
        _ if tag < tags::PA => true,
        tags::PA => bits as usize <= count,
        tags::CH => bits <= sizes::MAX_CHARACTER,
        _ => false,
    }
}

// Whether every cell may.
fn are_sound_cells(count: usize, tags: &[u8], bits: &[u32]) -> bool
    requires { length tags.now ≡ length bits.now }
    ensures { result ≡ sound_cells count tags.now bits.now }
{
    // Stays: a loop, since with `zip` and `all` a cell takes eight machine instructions and not six (bar: the judging of a state at every call must not cost more than before).
    for (cell, tag) in tags.iter().enumerate() {
        if !is_sound_cell(count, *tag, bits[cell]) {
            return false;
        }
    }
    true
}

// Whether a program, registers and lent slices of these lengths are within the ranges that each call asks for that is handed registers: all but the cells.
#[inline(always)]
pub fn is_in_range(p: Program<'_>, r: Registers, lent: Lengths) -> bool
    ensures { result ≡ every (range_tests (program_of p.entry) r lent.bits lent.tags lent.history lent.output) }
{
    p.is_sound()
        && lent.are_kept_sizes(r)
        && has_registers_within(r, p.length)
        && has_output_within(r.written, lent.output)
}

// Whether a program, registers and lent slices are what the calls that are handed registers take: where not, they answer 10.
// Inlined, with what it asks first: so that no call copies the registers once more on the stack, whose bounds include/sam.h has.
#[tactic(auto, using(crate::proofs::Parts::sound_parts))]
#[inline(always)]
pub fn is_sound(
    p: Program<'_>,
    r: Registers,
    bits: &[u32],
    tags: &[u8],
    history: &[u64],
    output: &[u8],
) -> bool
    ensures { result ≡ sound (program_of p.entry) r (memory bits.now tags.now history.now output.now) }
{
    is_in_range(p, r, Lengths::of(bits, tags, history, output))
        && are_sound_cells(p.length, tags, bits)
}

// Registers with N and H, and all else 0.
pub fn zero_registers(n: usize, h: usize) -> Registers
    ensures { result ≡ cleared n h }
{
    Registers {
        n,
        h,
        pc: 0,
        sp: 0,
        fbr: 0,
        halt: 0,
        used: 0,
        kept: 0,
        written: 0,
    }
}

// The registers after a reset: those that it answers, and zero registers of one that is refused.
pub fn registers_begun(begun: Result<Registers, MachineRefusal>) -> Registers
    ensures { result ≡ registers_begun begun }
{
    begun.unwrap_or(zero_registers(0, 0))
}

// Sets cells to INT 0, and all history places and bytes of the output to 0, and answers the registers to start with; or refuses and changes nothing.
#[tactic(auto, unfolding(rules::specs::Reset::reset))]
pub fn reset(
    p: Program<'_>,
    bits: &mut [u32],
    tags: &mut [u8],
    history: &mut [u64],
    output: &mut [u8],
) -> Result<Registers, MachineRefusal>
    ensures { started result bits.new tags.new history.new output.new ≡ reset (program_of p.entry) (memory bits.old tags.old history.old output.old) }
{
    if !Lengths::of(bits, tags, history, output).are_start_sizes() {
        return Err(MachineRefusal::OutsideSizes);
    }
    if !p.is_sound() {
        return Err(MachineRefusal::Broken);
    }
    bits.fill(0);
    tags.fill(tags::INT);
    history.fill(0);
    output.fill(0);
    Ok(zero_registers(bits.len(), history.len()))
}
