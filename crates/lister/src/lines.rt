// The lines of a listing, one after the other, in an output of zeros.
ghost use Rattle.std.specs.Prelude.{◌≡◌, true, take};
ghost use Rattle.rules.specs.Table.{sound_table};
ghost use Rattle.rules.specs.Listing.{listing};
ghost use Rattle.program.specs.Lent.{program_of};
ghost use Rattle.digits.specs.Put.{Put};

use crate::line::put_line;
use program::Program;

// Writes the lines of a sound program, and tells the length of them all.
pub(crate) fn put_lines(p: Program<'_>, out: &mut [u8]) -> usize
    requires { sound_table (program_of p) ≡ true }
    ensures { Put out.old out.new 0 (listing (take p.entry.length p.entry.table.now)) result }
{
    let mut at = 0;
    for place in &p.table[..p.length] {
        at += put_line(out, at, *place);
    }
    at
}
