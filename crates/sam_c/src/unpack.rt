// The unpacker for C.
ghost use Rattle.std.specs.Prelude.{◌≡◌};
ghost use Rattle.sam_c.specs.Calls.{filled, unpack_call};

use crate::told;
use numbers::Numbered;
use rules::sizes;

// Unpacks an image into a table of 1,024 places, and tells the program's length.
#[unsafe(no_mangle)]
pub extern "C" fn sam_unpack(image: &[u8], table: &mut [u64], told: &mut [u64]) -> u32
    ensures { filled result told.new table.new ≡ unpack_call image.now table.old told.old }
{
    if told.len() != 1 {
        lent::blank(table, 0, sizes::MAX_PROGRAM);
        return told::NOT_ITS_LENGTH;
    }
    let answer = image::unpack(image, table);
    told.copy_from_slice(&[answer.unwrap_or(0) as u64]);
    answer.number()
}
