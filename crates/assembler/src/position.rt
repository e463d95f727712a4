// The line and the column of a place in a source, for the technician.
ghost use Rattle.std.specs.Prelude.{◌≡◌};
ghost use Rattle.rules.specs.Positions.{position_of};

use rules::Position;

// Counts the LFs before the place, and the bytes since the last of them. A place behind the source's end has the line and column of that end.
pub(crate) fn position_of(source: &[u8], place: usize) -> Position
    ensures { result ≡ position_of source.now place }
{
    let before = &source[..place.min(source.len())];
    let mut line = 1;
    let mut column = 1;
    for b in before {
        if *b == b'\n' {
            line += 1;
            column = 1;
        } else {
            column += 1;
        }
    }
    Position {
        place,
        line,
        column,
    }
}
