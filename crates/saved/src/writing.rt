// The save's part that writes: the head, cell after cell, byte after byte, over zeros.
ghost use Rattle.std.specs.Prelude.{◌≡◌, ◌+◌, ◌*◌, ◌≤◌, length, replicate};
ghost use Rattle.rules.specs.Lists.{splice};
ghost use Rattle.rules.specs.Sizes.{max_cells, max_output, state_size};
ghost use Rattle.rules.specs.Fields.{bits_of, packed_to, bytes_for};
ghost use Rattle.rules.specs.Cells.{cells};
ghost use Rattle.rules.specs.SavedState.{head_width, cells_saved, state_bits};

use crate::head::{cell_number, head_of};
use crate::layout::{BYTE_WIDTH, CELL_WIDTH, HEAD_WIDTH, announced, behind_cells};
use fields::put;
use rules::Registers;

// Writes tags and bits, cell after cell, behind the head.
fn write_cells(tags: &[u8], bits: &[u32], image: &mut [u8])
    requires { (length tags.now ≡ length bits.now) × (length tags.now ≤ max_cells) × (length image.old ≡ state_size) }
    ensures { bits_of image.new ≡ splice (bits_of image.old) head_width (cells_saved tags.now bits.now) }
{
    for (i, (tag, bits)) in tags.iter().zip(bits).enumerate() {
        put(image, behind_cells(i), CELL_WIDTH, cell_number(*tag, *bits));
    }
}

// Writes an output, from bit `at` on.
fn write_output(output: &[u8], image: &mut [u8], at: usize)
    requires { (length output.now ≤ max_output) × (at + length output.now * 8 ≤ state_size * 8) × (length image.old ≡ state_size) }
    ensures { bits_of image.new ≡ splice (bits_of image.old) at (bits_of output.now) }
{
    for (i, byte) in output.iter().enumerate() {
        put(image, at + i * BYTE_WIDTH, BYTE_WIDTH, *byte as u64);
    }
}

// Writes the image of a state over zeros, and tells its length in bytes.
pub(crate) fn write_state(
    r: Registers,
    bits: &[u32],
    tags: &[u8],
    output: &[u8],
    image: &mut [u8],
) -> usize
    requires { (length tags.now ≡ r.n) × (length bits.now ≡ r.n) × (r.n ≤ max_cells) × (r.written ≤ length output.now) × (r.written ≤ max_output) × (image.old ≡ replicate state_size 0) }
    ensures bytes { image.new ≡ packed_to state_size (state_bits r (cells bits.now tags.now) output.now) }
    ensures told { result ≡ bytes_for (length (state_bits r (cells bits.now tags.now) output.now)) }
{
    put(image, 0, HEAD_WIDTH, head_of(r));
    write_cells(tags, bits, image);
    write_output(&output[..r.written], image, behind_cells(r.n));
    announced(r.n, r.written).div_ceil(8)
}
