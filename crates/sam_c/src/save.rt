// The save for C.
ghost use Rattle.std.specs.Prelude.{◌≡◌};
ghost use Rattle.rules.specs.Table.{program};
ghost use Rattle.rules.specs.State.{memory};
ghost use Rattle.sam_c.specs.Calls.{filled, save_call};

use crate::{registers, told};
use numbers::Numbered;
use program::Program;
use rules::sizes;

// Saves a machine's state into an image of 4,638 bytes, and tells the image's length.
#[unsafe(no_mangle)]
pub extern "C" fn sam_save(
    table: &[u64],
    length: u64,
    registers: &[u64],
    bits: &[u32],
    tags: &[u8],
    history: &[u64],
    output: &[u8],
    image: &mut [u8],
    told: &mut [u64],
) -> u32
    ensures { filled result told.new image.new ≡ save_call (program table.now length) registers.now (memory bits.now tags.now history.now output.now) image.old told.old }
{
    if told.len() != 1 {
        lent::blank(image, 0, sizes::STATE_SIZE);
        return told::NOT_ITS_LENGTH;
    }
    let Some(r) = registers::read(registers) else {
        told.fill(0);
        lent::blank(image, 0, sizes::STATE_SIZE);
        return registers::refused_save(image.len());
    };
    let p = Program {
        table,
        length: length as usize,
    };
    let answer = saved::save(p, r, bits, tags, history, output, image);
    told.copy_from_slice(&[answer.unwrap_or(0) as u64]);
    answer.number()
}
