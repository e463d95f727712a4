// The packer and the unpacker: a program's table as an image of bits, and back.
#![tactic(auto)]

use program::Program;
use rules::{ImageRefusal, sizes};

mod operands;
mod reading;
mod writing;

ghost use Rattle.std.specs.Prelude.{◌≡◌};
ghost use Rattle.rules.specs.Image.{pack, unpack};
ghost use Rattle.program.specs.Lent.{program_of};

// Packs the program: the image, then zeros, and its length told.
pub fn pack(p: Program<'_>, image: &mut [u8]) -> Result<usize, ImageRefusal>
    ensures answer { result ≡ (pack (program_of p.entry) image.old).answer }
    ensures output { image.new ≡ (pack (program_of p.entry) image.old).output }
{
    if image.len() != sizes::IMAGE_SIZE {
        return Err(ImageRefusal::OutputLength);
    }
    image.fill(0);
    if !p.is_sound() {
        return Err(ImageRefusal::TableBroken);
    }
    Ok(writing::write_image(p, image))
}

// Unpacks an image: the table's places, then zeros, and their number told.
pub fn unpack(image: &[u8], table: &mut [u64]) -> Result<usize, ImageRefusal>
    ensures answer { result ≡ (unpack image.now table.old).answer }
    ensures output { table.new ≡ (unpack image.now table.old).output }
{
    if table.len() != sizes::MAX_PROGRAM {
        return Err(ImageRefusal::OutputLength);
    }
    let answer = reading::read_image(image, table);
    if answer.is_err() {
        table.fill(0);
    }
    answer
}
