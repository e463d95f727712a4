// The cells of a formula: those of a to h, and above them what its program holds. The machine has no history and no output.
use program::Program;
use rules::sizes::{MAX_PROGRAM, NAME_CELLS};
use rules::{Registers, Run, tags};

// Enough for the names' cells and for the depth of every formula, which is at most 35 (formula/proofs/Readings).
pub(crate) const CELLS: usize = 64;

const PLACES: usize = 0;

const OUTPUT_SIZE: usize = 0;

// Runs a program on these cells for at most as many steps as it has instructions: enough, since what is run here goes straight on to its STOP.
pub(crate) fn run(p: Program<'_>, registers: Registers, bits: &mut [u32], tags: &mut [u8]) -> Run {
    let mut history = [0u64; PLACES];
    let mut output = [0u8; OUTPUT_SIZE];
    machine::run::run(
        p,
        registers,
        bits,
        tags,
        &mut history,
        &mut output,
        p.length,
    )
}

// Runs a source on cells that are all INT 0, as a reset leaves them, and tells the registers after it. A refused source has no instruction, and pushes nothing.
pub(crate) fn push_numbers(source: &[u8], bits: &mut [u32], tags: &mut [u8]) -> Registers {
    let mut table = [0u64; MAX_PROGRAM];
    let length = assembler::assemble(source, &mut table).unwrap_or(0);
    let ran = run(
        Program {
            table: &table,
            length,
        },
        state::zero_registers(CELLS, PLACES),
        bits,
        tags,
    );
    ran.registers
}

// Whether a source came to its STOP and left as many INTs as there are names, and FBR where a formula needs it.
pub(crate) fn are_pushed(registers: Registers, tags: &[u8; CELLS]) -> bool {
    registers.halt != 0
        && registers.sp == NAME_CELLS
        && registers.fbr == 0
        && tags[..NAME_CELLS].iter().all(|tag| *tag == tags::INT)
}

// The registers for a second program on the cells that a first one left.
pub(crate) fn restarted(registers: Registers) -> Registers {
    Registers {
        pc: 0,
        halt: 0,
        ..registers
    }
}
