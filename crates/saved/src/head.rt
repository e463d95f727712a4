// The registers that a saved state holds, side by side in one number: N 10 bits, PC 11, SP 10, FBR 10, HALT 1, output count 9; and a cell in one: tag 3, bits 32.
// Stays: in one number: by a `put` and a `get` for each register all six have a start to be named beside their width, which is no plainer.
ghost use Rattle.std.specs.Prelude.{◌≡◌, [], ◌∷◌};
ghost use Rattle.rules.specs.Fields.{field, value, side};
ghost use Rattle.rules.specs.SavedState.{head_layout, head_of, head_width, saved_cell_layout, saved_cell_width, registers_in};
ghost use Rattle.saved.specs.Cells.{saved_cell};

use rules::{Cell, Registers};

// The span of a field is how many numbers it has room for: N, SP and FBR have ten bits.
const CELL_SPAN: u64 = 0x400;

const PC_SPAN: u64 = 0x800;

const HALT_SPAN: u64 = 0x2;

const WRITTEN_SPAN: u64 = 0x200;

const TAG_SPAN: u64 = 0x8;

// The weight of a field is what 1 counts for in it: as much as the fields behind it have room for.
const HALT_WEIGHT: u64 = WRITTEN_SPAN;

const FBR_WEIGHT: u64 = HALT_SPAN * HALT_WEIGHT;

const SP_WEIGHT: u64 = CELL_SPAN * FBR_WEIGHT;

const PC_WEIGHT: u64 = CELL_SPAN * SP_WEIGHT;

const N_WEIGHT: u64 = PC_SPAN * PC_WEIGHT;

const TAG_WEIGHT: u64 = 0x1_0000_0000;

// The registers as one number: of a register that does not fit its field, the low bits.
pub(crate) fn head_of(r: Registers) -> u64
    ensures { result ≡ value (side head_layout (head_of r)) }
{
    (r.n as u64 % CELL_SPAN) * N_WEIGHT
        + (r.pc as u64 % PC_SPAN) * PC_WEIGHT
        + (r.sp as u64 % CELL_SPAN) * SP_WEIGHT
        + (r.fbr as u64 % CELL_SPAN) * FBR_WEIGHT
        + (r.halt as u64 % HALT_SPAN) * HALT_WEIGHT
        + r.written as u64 % WRITTEN_SPAN
}

// The registers of a head, beside a history of h places, of which none is used.
pub(crate) fn registers_of(head: u64, h: usize) -> Registers
    ensures { result ≡ registers_in h (field head_width head) }
{
    Registers {
        n: (head / N_WEIGHT % CELL_SPAN) as usize,
        h,
        pc: (head / PC_WEIGHT % PC_SPAN) as usize,
        sp: (head / SP_WEIGHT % CELL_SPAN) as usize,
        fbr: (head / FBR_WEIGHT % CELL_SPAN) as usize,
        halt: (head / HALT_WEIGHT % HALT_SPAN) as usize,
        used: 0,
        kept: 0,
        written: (head % WRITTEN_SPAN) as usize,
    }
}

// A cell as one number, and back.
pub(crate) fn cell_number(tag: u8, bits: u32) -> u64
    ensures { result ≡ value (side saved_cell_layout (tag ∷ bits ∷ [])) }
{
    (tag as u64 % TAG_SPAN) * TAG_WEIGHT + bits as u64
}

pub(crate) fn cell_of(number: u64) -> Cell
    ensures { result ≡ saved_cell (field saved_cell_width number) }
{
    Cell {
        bits: (number % TAG_WEIGHT) as u32,
        tag: (number / TAG_WEIGHT % TAG_SPAN) as u8,
    }
}
