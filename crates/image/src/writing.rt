// The packer's part that writes: instruction after instruction, over zeros.
ghost use Rattle.std.specs.Prelude.{◌≡◌, ◌+◌, ◌*◌, ◌≤◌, length, replicate};
ghost use Rattle.rules.specs.Lists.{splice};
ghost use Rattle.rules.specs.Sizes.{max_program, image_size};
ghost use Rattle.rules.specs.Fields.{field, bits_of, packed_to};
ghost use Rattle.rules.specs.Table.{code_of};
ghost use Rattle.rules.specs.Image.{code_width, width_of, instruction_bits, image_bits, image_length};
ghost use Rattle.program.specs.Lent.{program_of};
ghost use Rattle.image.specs.Longest.{longest};

use crate::operands::{CODE_WIDTH, COUNT_WIDTH, span_of, width_of};
use fields::put;
use program::Program;
use program::kinds::kind_of;
use program::table::{code_of, operand_of};

// Writes the instruction at bit `at`, as one field: its code, and the low bits of its operand. Tells the bit after it.
fn put_instruction(image: &mut [u8], at: usize, place: u64) -> usize
    requires { (length image.old ≡ image_size) × (at + longest ≤ image_size * 8) }
    ensures bits { bits_of image.new ≡ splice (bits_of image.old) at (instruction_bits place) }
    ensures next { result ≡ at + length (instruction_bits place) }
{
    let code = code_of(place);
    let kind = kind_of(code);
    let width = width_of(kind);
    let span = span_of(kind);
    let bits = code as u64 * span + operand_of(place) as u64 % span;
    put(image, at, CODE_WIDTH + width, bits);
    at + CODE_WIDTH + width
}

// Writes the image of the program over zeros, and tells its length in bytes.
pub(crate) fn write_image(p: Program<'_>, image: &mut [u8]) -> usize
    requires { (p.length ≤ max_program) × (p.length ≤ length p.table.now) × (image.old ≡ replicate image_size 0) }
    ensures bytes { image.new ≡ packed_to image_size (image_bits (program_of p.entry)) }
    ensures told { result ≡ image_length (program_of p.entry) }
{
    put(image, 0, COUNT_WIDTH, p.length as u64);
    let mut at = COUNT_WIDTH;
    for place in &p.table[..p.length] {
        at = put_instruction(image, at, *place);
    }
    at.div_ceil(8)
}
