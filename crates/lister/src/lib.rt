// The lister: a program as text that assembles to it again.
#![tactic(auto)]

mod line;
mod lines;

ghost use Rattle.std.specs.Prelude.{◌≡◌};
ghost use Rattle.rules.specs.Listing.{list};
ghost use Rattle.program.specs.Lent.{program_of};

use program::Program;
use rules::{TextRefusal, sizes};

// Lists the program into an output of 20,480 bytes: a line each, and zeros after the length told.
// An output of another length is left as it is; one of this length is zeroed where the table is broken.
pub fn list(p: Program<'_>, text: &mut [u8]) -> Result<usize, TextRefusal>
    ensures { (result ≡ (list (program_of p.entry) text.old).answer) × (text.new ≡ (list (program_of p.entry) text.old).bytes) }
{
    if text.len() != sizes::LISTING_SIZE {
        return Err(TextRefusal::WrongLength);
    }
    text.fill(0);
    if !p.is_sound() {
        return Err(TextRefusal::BrokenTable);
    }
    Ok(lines::put_lines(p, text))
}
