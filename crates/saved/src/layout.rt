// Where things stand in a saved state: the widths of its head and of a cell, and the bits at which the output begins and all of it ends.
ghost use Rattle.std.specs.Prelude.{◌≡◌, ◌≤◌};
ghost use Rattle.rules.specs.SavedState.{output_from, announced};
ghost use Rattle.saved.specs.Reach.{most_cells, most_bytes};

// "N 10 bits, PC 11, SP 10, FBR 10, HALT 1, output count 9"
pub(crate) const HEAD_WIDTH: usize = 51;

// "each of the N cells as tag 3 and bits 32"
pub(crate) const CELL_WIDTH: usize = 35;

pub(crate) const BYTE_WIDTH: usize = 8;

// Behind n cells: there stands the next one, or the output.
pub(crate) fn behind_cells(n: usize) -> usize
    requires { n ≤ most_cells }
    ensures { result ≡ output_from n }
{
    HEAD_WIDTH + n * CELL_WIDTH
}

// Where all ends that N cells and so many bytes of output announce.
pub(crate) fn announced(n: usize, written: usize) -> usize
    requires { (n ≤ most_cells) × (written ≤ most_bytes) }
    ensures { result ≡ announced n written }
{
    behind_cells(n) + written * BYTE_WIDTH
}
