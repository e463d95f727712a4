// Packs and unpacks: sound programs there and back, tables that are broken, images that are cut, padded and damaged. A line for each: its
// name, the number, the length told, and what the output holds. Standard input has two lines for each case: its name; its kind, and numbers
// in hex, a space before each. The kinds are
//   t  a length and places: packed, and the image unpacked again
//   p  a length and places: packed
//   o  the same into an output one byte short
//   s  a length and places, of which the last is missing: packed
//   u  the bytes of an image: unpacked
//   v  the same into a table one place short
#![tactic(auto)]

use program::Program;
use rules::sizes::{IMAGE_SIZE, MAX_PROGRAM};
use std::io;
use std::io::{Read, Write};

mod hex;
mod say;

// The bytes that are read at most.
const INPUT_SIZE: usize = 65_536;

// The bytes of an image of the input at most.
const GIVEN_SIZE: usize = 8;

// Unpacks an image, and says whether the table is there again.
fn again<W: Write>(out: &mut W, image: &[u8], table: &[u64]) -> io::Result<()> {
    let mut second = [7u64; MAX_PROGRAM];
    say::answer(out, image::unpack(image, &mut second))?;
    if table == second.as_slice() {
        write!(out, " same")?;
    }
    Ok(())
}

// Packs a program into what is lent of an image, and gives back the length told.
fn pack<W: Write>(out: &mut W, p: Program<'_>, image: &mut [u8]) -> io::Result<usize> {
    let told = say::answer(out, image::pack(p, image))?;
    say::image(out, image, told)?;
    Ok(told)
}

// Unpacks an image into what is lent of a table.
fn unpack<W: Write>(out: &mut W, image: &[u8], table: &mut [u64]) -> io::Result<()> {
    let told = say::answer(out, image::unpack(image, table))?;
    say::contents(out, table, told, say::PLACE_DIGITS)
}

// The numbers of a table are a length and the places.
fn table_case<W: Write>(out: &mut W, kind: u8, numbers: &hex::Numbers) -> io::Result<()> {
    let length = numbers[1] as usize;
    let table = &numbers[2..];
    let p = Program { table, length };
    let mut image = [7u8; IMAGE_SIZE];
    match kind {
        b't' => {
            let told = pack(out, p, &mut image)?;
            match image.get(..told) {
                Some(image) => again(out, image, table),
                None => Ok(()),
            }
        }
        b'o' => pack(out, p, &mut image[1..]).map(drop),
        b's' => pack(
            out,
            Program {
                table: &table[1..],
                length,
            },
            &mut image,
        )
        .map(drop),
        _ => pack(out, p, &mut image).map(drop),
    }
}

// The numbers of an image are its bytes.
fn image_case<W: Write>(
    out: &mut W,
    kind: u8,
    numbers: &hex::Numbers,
    length: usize,
) -> io::Result<()> {
    let mut image = [0u8; GIVEN_SIZE];
    for (byte, n) in image.iter_mut().zip(&numbers[1..]) {
        *byte = (*n % 256) as u8;
    }
    let Some(image) = image.get(..length) else {
        return Ok(());
    };
    let mut table = [7u64; MAX_PROGRAM];
    match kind {
        b'u' => unpack(out, image, &mut table),
        _ => unpack(out, image, &mut table[1..]),
    }
}

// A case: the first byte tells its kind, u and all above it an image's. An empty line is none.
fn case<W: Write>(out: &mut W, line: &[u8]) -> io::Result<()> {
    let Some(&kind) = line.first() else {
        return Ok(());
    };
    let mut numbers = [0u64; hex::NUMBERS];
    let count = hex::read(line, &mut numbers);
    if kind < b'u' {
        table_case(out, kind, &numbers)?;
    } else {
        image_case(out, kind, &numbers, count)?;
    }
    writeln!(out)
}

// The name of a case on a line, and the case on the next one. What no line's end ends is not read.
fn lines<W: Write>(out: &mut W, input: &[u8]) -> io::Result<()> {
    let mut rest = input;
    let mut is_name = true;
    while let Some(end) = rest.iter().position(|b| *b == b'\n') {
        let line = &rest[..end];
        if is_name {
            out.write_all(line)?;
        } else {
            case(out, line)?;
        }
        is_name = !is_name;
        rest = &rest[end + 1..];
    }
    Ok(())
}

// The lines that are read.
fn read_lines<R: Read, W: Write>(input: &mut R, out: &mut W) -> io::Result<()> {
    let mut bytes = [0u8; INPUT_SIZE];
    let n = reader::read_full(input, &mut bytes)?;
    lines(out, &bytes[..n])
}

fn main(rt: HostRuntime) -> io::Result<()> {
    read_lines(&mut rt.stdin(), &mut rt.stdout())
}
