// The labels sought by name, and the names where they stand in the source.
ghost use Rattle.std.specs.Prelude.{◌≡◌};
ghost use Rattle.rules.specs.Assemble.{lookup};
ghost use Rattle.assembler.specs.Held.{piece, labels_of, found_of};

use crate::held::Label;

// The `len` bytes of the source from `start`, or as many as there are.
pub(crate) fn piece_of(source: &[u8], start: usize, len: usize) -> &[u8]
    ensures { result.now ≡ piece source.now start len }
{
    let rest = &source[start.min(source.len())..];
    &rest[..len.min(rest.len())]
}

// The address of the label with the name, if there is one.
pub(crate) fn find_label(source: &[u8], labels: &[Label], name: &[u8]) -> Option<u16>
    ensures { lookup (labels_of source.now labels.now) name.now ≡ found_of result }
{
    labels
        .iter()
        .find(|label| piece_of(source, label.start as usize, label.length as usize) == name)
        .map(|label| label.address)
}
