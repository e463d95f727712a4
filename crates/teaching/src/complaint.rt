// The complaint: a trial stores a float over a dwell of four seconds, and one step-back must bring back the number and its tag.
use crate::show::{show, show_cell};
use program::Program;
use rules::sizes::MAX_PROGRAM;
use rules::{Cell, Registers};
use std::io;
use std::io::Write;

const SOURCE: [u8; 135] =
    *b"// The complaint: a dwell of four seconds, in tenths, and a trial that stores a float over it
PUSHIMM 40
PUSHIMMF #40200000
STOREOFF 0
";

const CELLS: usize = 16;

const PLACES: usize = 6;

// A program and the machine that it is tried on, which has no output.
#[derive(Drop)]
struct Trial<'a> {
    program: Program<'a>,
    registers: Registers,
    bits: [u32; CELLS],
    tags: [u8; CELLS],
    history: [u64; PLACES],
    output: [u8; 0],
}

impl<'a> Trial<'a> {
    fn new(p: Program<'a>) -> Self {
        let mut bits = [0u32; CELLS];
        let mut tags = [0u8; CELLS];
        let mut history = [0u64; PLACES];
        let mut output = [0u8; 0];
        let begun = state::reset(p, &mut bits, &mut tags, &mut history, &mut output);
        Trial {
            program: p,
            registers: state::registers_begun(begun),
            bits,
            tags,
            history,
            output,
        }
    }

    fn step(&mut self) {
        let step = machine::step::step(
            self.program,
            self.registers,
            &mut self.bits,
            &mut self.tags,
            &mut self.history,
            &mut self.output,
        );
        self.registers = numbers::registers_after(self.registers, step);
    }

    fn step_back(&mut self) {
        let step = back::step_back(
            self.program,
            self.registers,
            &mut self.bits,
            &mut self.tags,
            &mut self.history,
            &mut self.output,
        );
        self.registers = numbers::registers_after(self.registers, step);
    }

    // Cell 0, where the dwell is.
    fn dwell(&self) -> Cell {
        Cell {
            bits: self.bits[0],
            tag: self.tags[0],
        }
    }
}

// Shows the dwell after the first step, after two more, and after one step-back.
fn show_trial<W: Write>(out: &mut W, p: Program<'_>) -> io::Result<()> {
    let mut trial = Trial::new(p);
    trial.step();
    show_cell(out, b"before", trial.dwell())?;
    trial.step();
    trial.step();
    show_cell(out, b"trial", trial.dwell())?;
    trial.step_back();
    show_cell(out, b"back", trial.dwell())
}

// The complaint's program as the console runs it, and the trial.
pub(crate) fn complaint<W: Write>(out: &mut W) -> io::Result<()> {
    show(out, b"complaint", &SOURCE)?;
    let mut table = [0u64; MAX_PROGRAM];
    match assembler::assemble(&SOURCE, &mut table) {
        Ok(length) => show_trial(
            out,
            Program {
                table: &table,
                length,
            },
        ),
        Err(_) => Ok(()),
    }
}
