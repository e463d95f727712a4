// The formula program: prints the listing, the depth and the number of a formula, or why there is none. The first line of standard input is a source that pushes
// the numbers of a to h and stops; all behind it is the formula. So no number is read here: the assembler reads them, and the machine pushes them.
#![tactic(auto)]

use program::Program;
use rules::sizes::{MAX_PROGRAM, MAX_SOURCE, NAME_CELLS};
use rules::tags;
use std::io;
use std::io::{Read, Write};

mod cells;
mod say;

// The longest source, its LF, the longest formula, and a byte more, so that a formula that is too long is told apart.
const INPUT_SIZE: usize = MAX_SOURCE + 1 + MAX_SOURCE + 1;

// Prints what the formula makes of the numbers that the source pushes. Its program runs on the cells where they lie, and leaves its number above them.
fn answer<W: Write>(out: &mut W, source: &[u8], formula: &[u8]) -> io::Result<()> {
    let mut bits = [0u32; cells::CELLS];
    let mut tags = [tags::INT; cells::CELLS];
    let pushed = cells::push_numbers(source, &mut bits, &mut tags);
    if !cells::are_pushed(pushed, &tags) {
        return say::no_numbers(out);
    }
    let mut table = [0u64; MAX_PROGRAM];
    match formula::translate(formula, &mut table) {
        Ok(translated) => {
            let p = Program {
                table: &table,
                length: translated.length,
            };
            say::listing(out, p)?;
            say::depth(out, translated.depth)?;
            let start = cells::restarted(pushed);
            let ran = cells::run(p, start, &mut bits, &mut tags);
            say::ending(out, ran.ending, bits[NAME_CELLS])
        }
        Err(refusal) => say::refusal(out, refusal),
    }
}

// Answers an input: the source up to the first LF, and the formula behind it.
fn answer_input<W: Write>(out: &mut W, input: &[u8]) -> io::Result<()> {
    match input.iter().position(|b| *b == b'\n') {
        Some(end) => answer(out, &input[..end], &input[end + 1..]),
        None => say::no_numbers(out),
    }
}

// Answers the input that is read.
fn answer_read<R: Read, W: Write>(input: &mut R, out: &mut W) -> io::Result<()> {
    let mut bytes = [0u8; INPUT_SIZE];
    let n = reader::read_full(input, &mut bytes)?;
    answer_input(out, &bytes[..n])
}

fn main(rt: HostRuntime) -> io::Result<()> {
    answer_read(&mut rt.stdin(), &mut rt.stdout())
}
