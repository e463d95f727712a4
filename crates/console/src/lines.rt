// The lines that the console prints.
ghost use Rattle.std.specs.Prelude.{[], ◌∷◌, ◌≤◌};
ghost use Rattle.rules.specs.Lists.{text};
ghost use Rattle.rules.specs.Listing.{decimal};
ghost use Rattle.rules.specs.Numbers.{text_number};
ghost use Rattle.rules.specs.Console.{line, cell_line, refused_line};
ghost use Rattle.digits.specs.Put.{Put};

use crate::values::put_value;
use crate::words::{put_named, put_number, put_tag};
use numbers::Numbered;
use rules::{Cell, Registers, SourceFault};

// Enough bytes for the line of a cell.
const LINE_SIZE: usize = 64;

// Writes "refused", a number, and the place, the line and the column.
pub(crate) fn put_refused(out: &mut [u8], fault: SourceFault) -> usize
    ensures { Put out.old out.new 0 (refused_line (text_number fault.refusal) fault.position) result }
{
    let position = fault.position;
    let a = put_named(out, 0, b"refused", fault.number() as usize, b' ');
    let b = a + put_number(out, a, position.place, b' ');
    let c = b + put_number(out, b, position.line, b' ');
    c + put_number(out, c, position.column, b'\n')
}

// Writes the answer and the steps of a run.
pub(crate) fn put_ending(out: &mut [u8], number: usize, steps: usize) -> usize
    ensures { Put out.old out.new 0 (line (text "end" ∷ decimal 9 number ∷ text "steps" ∷ decimal 9 steps ∷ [])) result × (result ≤ 40) }
{
    let a = put_named(out, 0, b"end", number, b' ');
    a + put_named(out, a, b"steps", steps, b'\n')
}

// Writes PC, SP and FBR from `at` on.
pub(crate) fn put_registers(out: &mut [u8], at: usize, r: Registers) -> usize
    requires { at ≤ 64 }
    ensures { Put out.old out.new at (line (text "PC" ∷ decimal 9 r.pc ∷ text "SP" ∷ decimal 9 r.sp ∷ text "FBR" ∷ decimal 9 r.fbr ∷ [])) result × (result ≤ 60) }
{
    let a = put_named(out, at, b"PC", r.pc, b' ');
    let b = a + put_named(out, at + a, b"SP", r.sp, b' ');
    b + put_named(out, at + b, b"FBR", r.fbr, b'\n')
}

// Writes the line of a cell at the start.
fn put_cell_line(out: &mut [u8], i: usize, cell: Cell) -> usize
    ensures { Put out.old out.new 0 (cell_line i cell) result × (result ≤ 29) }
{
    let a = put_number(out, 0, i, b' ');
    let b = a + put_tag(out, a, cell.tag);
    b + put_value(out, b, cell)
}

// Writes the line of a cell, the one of this place. The line is made in bytes of its own, so that no place is too high for it.
pub fn put_cell(out: &mut [u8], at: usize, i: usize, cell: Cell) -> usize
    ensures { Put out.old out.new at (cell_line i cell) result }
{
    let mut made = [0u8; LINE_SIZE];
    let n = put_cell_line(&mut made, i, cell);
    digits::put_text(out, at, &made[..n])
}
