// Sources assembled, listed and assembled again, one line for each: the number of the refusal and its place; or 0, the number of instructions,
// the length of the listing, and 1 where the listing was assembled to the same number of instructions and the same table. The sources are of
// the documents' sentences, whole and damaged, and at the edges of its sizes: standard input has all but the longest, last 256 and 257 labels,
// 1,024 and 1,025 instructions, and the program of the longest listing. After them the number alone of listings that are refused, or not.
#![tactic(auto)]

use numbers::Numbered;
use program::Program;
use rules::sizes::{LISTING_SIZE, MAX_PROGRAM, MAX_SOURCE};
use std::io;
use std::io::{Read, Write};

// The bytes that are read at most.
const INPUT_SIZE: usize = 65_536;

// Whether a listing is assembled to the program's instructions and its table.
fn is_again(listing: &[u8], p: Program<'_>) -> bool {
    let mut second = [5u64; MAX_PROGRAM];
    assembler::assemble(listing, &mut second).is_ok_and(|length| length == p.length)
        && p.table == second.as_slice()
}

// Prints the length of a program's listing, and 1 where it is assembled again, else 0.
fn listed<W: Write>(out: &mut W, p: Program<'_>) -> io::Result<()> {
    let mut text = [7u8; LISTING_SIZE];
    let length = lister::list(p, &mut text).unwrap_or(0);
    if let Some(listing) = text.get(..length) {
        let again = is_again(listing, p) as u8;
        writeln!(out, "{length} {again}")?;
    }
    Ok(())
}

fn trip<W: Write>(out: &mut W, source: &[u8]) -> io::Result<()> {
    let mut table = [9u64; MAX_PROGRAM];
    match assembler::assemble(source, &mut table) {
        Ok(length) => {
            write!(out, "0 {length} ")?;
            listed(
                out,
                Program {
                    table: &table,
                    length,
                },
            )
        }
        Err(fault) => {
            let number = fault.number();
            let place = fault.position.place;
            writeln!(out, "{number} {place}")
        }
    }
}

// The sources of an input, each up to a `;` that ends its line: behind it, or behind several, one byte is skipped.
fn trips<W: Write>(out: &mut W, input: &[u8]) -> io::Result<()> {
    let mut rest = input;
    while let Some(end) = rest.iter().position(|b| *b == b';') {
        trip(out, &rest[..end])?;
        let Some(marks) = rest[end..].iter().position(|b| *b != b';') else {
            break;
        };
        rest = &rest[end + marks + 1..];
    }
    Ok(())
}

// Blanks alone: the longest source, and one that is too long.
fn blanks<W: Write>(out: &mut W) -> io::Result<()> {
    trip(out, &[b' '; MAX_SOURCE])?;
    trip(out, &[b' '; MAX_SOURCE + 1])
}

// Prints the number of a listing's refusal, or 0, for a table whose first place is given and whose others are 0.
fn list<W: Write>(out: &mut W, place: u64, length: usize, text: &mut [u8]) -> io::Result<()> {
    let mut table = [0u64; MAX_PROGRAM];
    table[0] = place;
    let p = Program {
        table: &table,
        length,
    };
    let number = lister::list(p, text).number();
    writeln!(out, "{number}")
}

// The lister's refusals: an output one byte short, before a broken table; a code above 53; a target behind the end; a character above 127; an operand of
// WRITECH, and of STOP; a place that is used and is not in the program.
fn refusals<W: Write>(out: &mut W) -> io::Result<()> {
    let mut text = [0u8; LISTING_SIZE];
    let short = &mut text[..LISTING_SIZE - 1];
    list(out, 0, 1, short)?;
    list(out, 0x36_0000_0000, 1, short)?;
    for (place, length) in [
        (0x36_0000_0000, 1),
        (0x2c_0000_0001, 1),
        (0x2c_0000_0002, 1),
        (0x34_0000_007f, 1),
        (0x34_0000_0080, 1),
        (0x35_0000_0000, 1),
        (0x35_0000_0001, 1),
        (1, 1),
        (0x1_0000_0001, 0),
        (0, MAX_PROGRAM + 1),
    ] {
        list(out, place, length, &mut text)?;
    }
    Ok(())
}

// The trips of the sources that are read, and then the others.
fn all_trips<R: Read, W: Write>(input: &mut R, out: &mut W) -> io::Result<()> {
    let mut bytes = [0u8; INPUT_SIZE];
    let n = reader::read_full(input, &mut bytes)?;
    trips(out, &bytes[..n])?;
    blanks(out)?;
    refusals(out)
}

fn main(rt: HostRuntime) -> io::Result<()> {
    all_trips(&mut rt.stdin(), &mut rt.stdout())
}
