// The packer for C.
ghost use Rattle.std.specs.Prelude.{◌≡◌};
ghost use Rattle.rules.specs.Table.{program};
ghost use Rattle.sam_c.specs.Calls.{filled, pack_call};

use crate::told;
use numbers::Numbered;
use program::Program;
use rules::sizes;

// Packs a program into an image of 4,866 bytes, and tells the image's length.
#[unsafe(no_mangle)]
pub extern "C" fn sam_pack(table: &[u64], length: u64, image: &mut [u8], told: &mut [u64]) -> u32
    ensures { filled result told.new image.new ≡ pack_call (program table.now length) image.old told.old }
{
    if told.len() != 1 {
        lent::blank(image, 0, sizes::IMAGE_SIZE);
        return told::NOT_ITS_LENGTH;
    }
    let p = Program {
        table,
        length: length as usize,
    };
    let answer = image::pack(p, image);
    told.copy_from_slice(&[answer.unwrap_or(0) as u64]);
    answer.number()
}
