// What is written for a program, and for a cell.
use rules::Cell;
use std::io;
use std::io::Write;

// Writes the line `program NAME`, and what the console prints for the source.
pub(crate) fn show<W: Write>(to: &mut W, name: &[u8], source: &[u8]) -> io::Result<()> {
    to.write_all(b"program ")?;
    to.write_all(name)?;
    to.write_all(b"\n")?;
    let mut out = [0u8; console::OUTPUT_SIZE];
    let told = console::print(source, &mut out);
    to.write_all(&out[..told])
}

// Writes a word, a space and the console's line for cell 0.
pub(crate) fn show_cell<W: Write>(to: &mut W, word: &[u8], cell: Cell) -> io::Result<()> {
    to.write_all(word)?;
    to.write_all(b" ")?;
    let mut line = [0u8; 64];
    let told = console::put_cell(&mut line, 0, 0, cell);
    to.write_all(&line[..told])
}
