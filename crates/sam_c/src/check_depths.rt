// The depth checker for C.
ghost use Rattle.std.specs.Prelude.{◌≡◌};
ghost use Rattle.rules.specs.Table.{program};
ghost use Rattle.sam_c.specs.Calls.{answered, depths_call};

use crate::told;
use numbers::Numbered;
use program::Program;

// Judges a list of stack depths beside a program, for a machine of n cells, and tells the place of a refusal.
#[unsafe(no_mangle)]
pub extern "C" fn sam_depths(
    table: &[u64],
    length: u64,
    n: u64,
    depths: &[u16],
    told: &mut [u64],
) -> u32
    ensures { answered result told.new ≡ depths_call (program table.now length) n depths.now told.old }
{
    if told.len() != 1 {
        return told::NOT_ITS_LENGTH;
    }
    let p = Program {
        table,
        length: length as usize,
    };
    let answer = depths::check(p, n as usize, depths);
    told.copy_from_slice(&[answer.err().map_or(0, |fault| fault.place) as u64]);
    answer.number()
}
