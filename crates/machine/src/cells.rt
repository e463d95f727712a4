// Cells: one of each tag.
// Stays: a function for each, as the rules have a definition for each (rules/specs/Tags): with the tag as a parameter a call would name it in two words for one.
ghost use Rattle.std.specs.Prelude.{◌≡◌};
ghost use Rattle.rules.specs.Tags.{int, float, ma, pa, ch};

use rules::{Cell, tags};

// INT 0.
pub(crate) const INT_ZERO: Cell = Cell {
    bits: 0,
    tag: tags::INT,
};

pub(crate) fn int_cell(bits: u32) -> Cell
    ensures { result ≡ int bits }
{
    Cell {
        bits,
        tag: tags::INT,
    }
}

pub(crate) fn float_cell(bits: u32) -> Cell
    ensures { result ≡ float bits }
{
    Cell {
        bits,
        tag: tags::FLOAT,
    }
}

pub(crate) fn memory_cell(bits: u32) -> Cell
    ensures { result ≡ ma bits }
{
    Cell {
        bits,
        tag: tags::MA,
    }
}

pub(crate) fn program_cell(bits: u32) -> Cell
    ensures { result ≡ pa bits }
{
    Cell {
        bits,
        tag: tags::PA,
    }
}

pub(crate) fn character_cell(bits: u32) -> Cell
    ensures { result ≡ ch bits }
{
    Cell {
        bits,
        tag: tags::CH,
    }
}
