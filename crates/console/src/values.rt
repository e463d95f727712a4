// The value of a cell, the last word of its line, with LF after it.
ghost use Rattle.std.specs.Prelude.{[], ◌∷◌, ◌++◌, ◌≤◌};
ghost use Rattle.rules.specs.Bytes.{hash, LF};
ghost use Rattle.rules.specs.Listing.{signed_text, hex};
ghost use Rattle.rules.specs.Console.{value_text};
ghost use Rattle.digits.specs.Put.{Put};

use crate::words::put_number;
use rules::{Cell, tags};

// Writes the bits of a FLOAT, and LF.
#[tactic(auto, using(rules::proofs::Texts::length_hex))]
fn put_pattern(out: &mut [u8], at: usize, bits: u32) -> usize
    requires { at ≤ 64 }
    ensures { Put out.old out.new at ((hash ∷ hex 8 bits) ++ LF ∷ []) result × (result ≤ 12) }
{
    digits::put_byte(out, at, 0, b'#');
    let n = digits::put_hex(out, at + 1, bits, digits::WORD_HEX);
    digits::put_byte(out, at, n + 1, b'\n');
    n + 2
}

// Writes a signed number, and LF.
#[tactic(auto, using(rules::proofs::Texts::length_signed))]
fn put_signed(out: &mut [u8], at: usize, bits: u32) -> usize
    ensures { Put out.old out.new at (signed_text bits ++ LF ∷ []) result × (result ≤ 12) }
{
    let n = digits::put_signed(out, at, bits);
    digits::put_byte(out, at, n, b'\n');
    n + 1
}

// Writes the value of a cell, and LF.
#[tactic(auto, unfolding(rules::specs::Console::value_text))]
pub(crate) fn put_value(out: &mut [u8], at: usize, cell: Cell) -> usize
    requires { at ≤ 64 }
    ensures { Put out.old out.new at (value_text cell.bits cell.tag ++ LF ∷ []) result × (result ≤ 12) }
{
    match cell.tag {
        tags::FLOAT => put_pattern(out, at, cell.bits),
        tags::PA => put_number(out, at, cell.bits as usize, b'\n'),
        _ => put_signed(out, at, cell.bits),
    }
}
