// What is printed: a formula's listing, its depth and its number, or why there is none.
use numbers::Numbered;
use program::Program;
use rules::sizes::LISTING_SIZE;
use rules::{Ending, FormulaRefusal, MachineRefusal};
use std::io;
use std::io::Write;

// The line for a first line that is no source of the eight numbers.
pub(crate) fn no_numbers<W: Write>(out: &mut W) -> io::Result<()> {
    out.write_all(b"refused: the numbers of a to h are not eight PUSHIMMs and a STOP\n")
}

// What a refusal means. 31 cannot come: the table that is lent has the right length.
fn meaning(refusal: FormulaRefusal) -> &'static str {
    match refusal {
        FormulaRefusal::FormulaTooLong => "more than 65,536 bytes",
        FormulaRefusal::CostTooHigh => "more than 1,024 instructions",
        FormulaRefusal::TableLength => "a table of another length",
        FormulaRefusal::FormulaByte => "forbidden byte",
        FormulaRefusal::CannotGoOn => "the formula cannot go on or end here",
        FormulaRefusal::NumberTooLarge => "number too large",
        FormulaRefusal::NestedTooDeep => "nested too deep",
    }
}

// The line of a formula that is refused.
pub(crate) fn refusal<W: Write>(out: &mut W, refusal: FormulaRefusal) -> io::Result<()> {
    let number = refusal.number();
    let meaning = meaning(refusal);
    writeln!(out, "refused {number}: {meaning}")
}

// The lines of a program, each with its LF.
pub(crate) fn listing<W: Write>(out: &mut W, p: Program<'_>) -> io::Result<()> {
    let mut lines = [0u8; LISTING_SIZE];
    let told = lister::list(p, &mut lines).unwrap_or(0);
    out.write_all(&lines[..told])
}

pub(crate) fn depth<W: Write>(out: &mut W, depth: usize) -> io::Result<()> {
    writeln!(out, "depth {depth}")
}

// The last line: the number, where the run came to STOP, or how else it ended. A division by zero is the only result that the program of a formula can lack.
pub(crate) fn ending<W: Write>(out: &mut W, ending: Ending, top: u32) -> io::Result<()> {
    let number = ending.number();
    match ending {
        Ending::Halted => {
            let result = top.cast_signed();
            writeln!(out, "number {result}")
        }
        Ending::Stopped(MachineRefusal::NoResult) => {
            writeln!(out, "end {number}: the formula divides by zero")
        }
        _ => writeln!(out, "end {number}"),
    }
}
