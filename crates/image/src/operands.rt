// The fields of an image: the widths of the count, a code and an operand, and the 32 bits that an operand has in a table.
ghost use Rattle.std.specs.Prelude.{◌≡◌, ◌^◌, ◌<◌};
ghost use Rattle.rules.specs.Image.{width_of, extended};

use rules::Kind;

// "Image: count 11 bits; each code 6 bits"
pub(crate) const COUNT_WIDTH: usize = 11;

pub(crate) const CODE_WIDTH: usize = 6;

// An offset's sign in an image, and the bits before the sign in a table, which are as it is.
const OFFSET_SIGN: u32 = 0x400;

const BEFORE_SIGN: u32 = 0xffff_f800;

// The bits of an operand of the kind.
pub(crate) fn width_of(kind: Kind) -> usize
    ensures { result ≡ width_of kind }
{
    match kind {
        Kind::Bare => 0,
        Kind::Immediate | Kind::Pattern => 32,
        Kind::Offset | Kind::Target => 11,
        Kind::Character => 7,
    }
}

// What a code counts for in a field, with the bits of an operand of the kind behind it.
pub(crate) fn span_of(kind: Kind) -> u64
    ensures { result ≡ 2 ^ width_of kind }
{
    1u64 << width_of(kind)
}

// The 32 bits in a table of an operand that an image has as the number v: an offset's sign goes on to the left.
pub(crate) fn table_bits(kind: Kind, v: u32) -> u32
    requires { v < 2 ^ width_of kind }
    ensures { result ≡ extended kind v }
{
    match kind {
        Kind::Offset if OFFSET_SIGN <= v => v + BEFORE_SIGN,
        _ => v,
    }
}
