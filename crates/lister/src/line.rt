// One line of a listing, byte by byte. A listing is a source, so that no place in it is past the longest one's end.
ghost use Rattle.std.specs.Prelude.{◌≡◌, ◌<◌, ◌≤◌, length};
ghost use Rattle.rules.specs.Sizes.{listing_size, max_source};
ghost use Rattle.rules.specs.Instructions.{name_of};
ghost use Rattle.rules.specs.Listing.{operand_text, spaced, line_of};
ghost use Rattle.digits.specs.Put.{Put};

use rules::Kind;

// Writes the name of a code.
fn put_name(out: &mut [u8], at: usize, code: usize) -> usize
    ensures { Put out.old out.new at (name_of code) result }
{
    let n = program::names::name_length(code);
    // Stays: byte by byte, since a name is a number (program/src/names.rt) and there is no slice of its bytes.
    for i in 0..n {
        digits::put_byte(out, at, i, program::names::name_byte(code, i));
    }
    n
}

// Writes an operand, of which some instructions have none: a signed number, the bits of a FLOAT, or a number without a sign.
#[tactic(auto, using(rules::proofs::Texts::length_hex))]
fn put_operand(out: &mut [u8], at: usize, kind: Kind, v: u32) -> usize
    requires { at ≤ max_source }
    ensures { Put out.old out.new at (operand_text kind v) result }
{
    match kind {
        Kind::Bare => 0,
        Kind::Immediate | Kind::Offset => digits::put_signed(out, at, v),
        Kind::Pattern => {
            digits::put_byte(out, at, 0, b'#');
            digits::put_hex(out, at + 1, v, digits::WORD_HEX) + 1
        }
        Kind::Target | Kind::Character => digits::put_decimal(out, at, u64::from(v)),
    }
}

// Writes what follows a name: nothing, or a space and the operand.
#[tactic(auto, using(crate::proofs::Writing::operand_short))]
fn put_spaced(out: &mut [u8], at: usize, kind: Kind, v: u32) -> usize
    requires { at < max_source }
    ensures { Put out.old out.new at (spaced (operand_text kind v)) result }
{
    match kind {
        Kind::Bare => 0,
        _ => {
            digits::put_byte(out, at, 0, b' ');
            put_operand(out, at + 1, kind, v) + 1
        }
    }
}

// Writes the line of a place.
#[tactic(auto, using(crate::proofs::Writing::name_short, crate::proofs::Writing::spaced_short))]
pub(crate) fn put_line(out: &mut [u8], at: usize, place: u64) -> usize
    requires { (at ≤ listing_size) × (length (line_of place) ≤ 20) }
    ensures { Put out.old out.new at (line_of place) result }
{
    let code = program::table::code_of(place);
    let kind = program::kinds::kind_of(code);
    let n = put_name(out, at, code);
    let m = put_spaced(out, at + n, kind, program::table::operand_of(place));
    digits::put_byte(out, at, n + m, b'\n');
    n + m + 1
}
