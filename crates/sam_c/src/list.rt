// The lister for C.
ghost use Rattle.std.specs.Prelude.{◌≡◌};
ghost use Rattle.rules.specs.Table.{program};
ghost use Rattle.sam_c.specs.Calls.{filled, list_call};

use crate::told;
use numbers::Numbered;
use program::Program;
use rules::sizes;

// Lists a program as text of 20,480 bytes, and tells the text's length.
#[unsafe(no_mangle)]
pub extern "C" fn sam_list(table: &[u64], length: u64, text: &mut [u8], told: &mut [u64]) -> u32
    ensures { filled result told.new text.new ≡ list_call (program table.now length) text.old told.old }
{
    if told.len() != 1 {
        lent::blank(text, 0, sizes::LISTING_SIZE);
        return told::NOT_ITS_LENGTH;
    }
    let p = Program {
        table,
        length: length as usize,
    };
    let answer = lister::list(p, text);
    told.copy_from_slice(&[answer.unwrap_or(0) as u64]);
    answer.number()
}
