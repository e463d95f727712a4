// Runs the published programs of document 004 in the slides' order, the word for the landing panel, and the complaint. The programs are those of
// standard input, each with its name behind it in a line that `~` begins; `bench/teaching` has their texts, the published ones as the slides do. What
// it writes is held to what an independent interpreter of document 01 prints for the same sources (`bench/teaching.py`).
#![tactic(auto)]

use std::io;
use std::io::{Read, Write};

mod complaint;
mod show;

// The bytes that are read at most.
const INPUT_SIZE: usize = 65_536;

// Shows the programs of an input, each behind the one before it. A program's name begins behind the last `~` before the line's end.
fn programs<W: Write>(out: &mut W, input: &[u8]) -> io::Result<()> {
    let mut rest = input;
    while let Some(first) = rest.iter().position(|b| *b == b'~') {
        let Some(length) = rest[first..].iter().position(|b| *b == b'\n') else {
            break;
        };
        let (program, behind) = rest.split_at(first + length);
        let Some(mark) = program.iter().rposition(|b| *b == b'~') else {
            break;
        };
        show::show(out, &program[mark + 1..], &program[..mark])?;
        rest = &behind[1..];
    }
    Ok(())
}

// Shows the programs that are read, and then the complaint.
fn show_all<R: Read, W: Write>(input: &mut R, out: &mut W) -> io::Result<()> {
    let mut bytes = [0u8; INPUT_SIZE];
    let n = reader::read_full(input, &mut bytes)?;
    programs(out, &bytes[..n])?;
    complaint::complaint(out)
}

fn main(rt: HostRuntime) -> io::Result<()> {
    show_all(&mut rt.stdin(), &mut rt.stdout())
}
