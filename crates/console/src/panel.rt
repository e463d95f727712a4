// The line of the landing panel: what was written to the output. Each writer ends within the bytes that are lent.
ghost use Rattle.std.specs.Prelude.{◌∷◌, ◌+◌, ◌*◌, ◌≤◌, ◌<◌, length};
ghost use Rattle.rules.specs.Bytes.{space};
ghost use Rattle.rules.specs.Listing.{hex};
ghost use Rattle.rules.specs.Console.{bytes_text, out_line};
ghost use Rattle.digits.specs.Put.{Put};
ghost use Rattle.console.specs.Room.{print_room};

// Writes a space and a byte as two hex digits: "each byte as a space and two hex capitals".
#[tactic(auto, using(rules::proofs::Texts::length_hex))]
fn put_shown(out: &mut [u8], at: usize, byte: u8) -> usize
    requires { at + 3 ≤ print_room }
    ensures { Put out.old out.new at (space ∷ hex 2 byte) result }
{
    digits::put_byte(out, at, 0, b' ');
    digits::put_hex(out, at + 1, byte as u32, digits::BYTE_HEX) + 1
}

// Writes each of the bytes so, and LF.
#[tactic(auto, using(rules::proofs::Texts::length_hex))]
fn put_bytes(out: &mut [u8], at: usize, bytes: &[u8]) -> usize
    requires { at + 3 * length bytes.now < print_room }
    ensures { Put out.old out.new at (bytes_text bytes.now) result }
{
    let mut told = 0;
    for byte in bytes {
        told += put_shown(out, at + told, *byte);
    }
    digits::put_byte(out, at, told, b'\n');
    told + 1
}

// Writes the line `out` where there are bytes, and nothing where there are none.
#[tactic(auto, using(crate::proofs::OutLine::length_bytes))]
pub(crate) fn put_out(out: &mut [u8], at: usize, bytes: &[u8]) -> usize
    requires { at + 3 * length bytes.now + 4 ≤ print_room }
    ensures { Put out.old out.new at (out_line bytes.now) result }
{
    if bytes.is_empty() {
        return 0;
    }
    let n = digits::put_text(out, at, b"out");
    n + put_bytes(out, at + n, bytes)
}
