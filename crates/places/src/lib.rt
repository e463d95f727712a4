// History places: each field of the two kinds of place, read. Every width is that of document 01, "History places", and document 02, letter h. The machine
// makes the places.
#![tactic(auto, using(crate::proofs::Fields::fields))]

ghost use Rattle.std.specs.Prelude.{◌≡◌, ◌/◌, ◌%◌, ◌<◌};
ghost use Rattle.rules.specs.Places.{mark, cell_address, cell_tag, cell_bits, cell_zeros, step_pc, step_sp, step_fbr, step_count, step_zeros};

// The mark of a cell place, and that of a step place.
// Stays: the marks are numbers, since they are bits of a history place, which document 01 names and C lends.
pub const CELL_MARK: u64 = 0;

pub const STEP_MARK: u64 = 1;

// The weight of a field is what 1 counts for in it, and its span is how many numbers it has room for.
// The mark stands first in both kinds of place.
pub const MARK_WEIGHT: u64 = 0x8000_0000_0000_0000;

// "address 10, .. old bits 32", and "The old tag .. becomes 3 bits and its zeros 18" (02 h)
pub const ADDRESS_WEIGHT: u64 = 0x0020_0000_0000_0000;

pub const TAG_WEIGHT: u64 = 0x0004_0000_0000_0000;

pub const BITS_WEIGHT: u64 = 0x0000_0000_0004_0000;

// "old PC 11, old SP 10, old FBR 10, cells written 10, 22 zeros"
pub const PC_WEIGHT: u64 = 0x0010_0000_0000_0000;

pub const SP_WEIGHT: u64 = 0x0000_0400_0000_0000;

pub const FBR_WEIGHT: u64 = 0x0000_0001_0000_0000;

pub const COUNT_WEIGHT: u64 = 0x0000_0000_0040_0000;

// An address, SP, FBR and a count of cells have ten bits.
const CELL_SPAN: u64 = 0x400;

const MARK_SPAN: u64 = 2;

const TAG_SPAN: u64 = 0x8;

const BITS_SPAN: u64 = 0x1_0000_0000;

const PC_SPAN: u64 = 0x800;

// The field of that weight and span.
fn field<const WEIGHT: u64, const SPAN: u64>(place: u64) -> u64
    requires weight { 0 < WEIGHT }
    requires span { 0 < SPAN }
    ensures { result ≡ place / WEIGHT % SPAN }
{
    place / WEIGHT % SPAN
}

// The mark of a place.
pub fn mark_of(place: u64) -> u64
    ensures { result ≡ mark place }
{
    field::<MARK_WEIGHT, MARK_SPAN>(place)
}

pub fn cell_address(place: u64) -> usize
    ensures { result ≡ cell_address place }
{
    field::<ADDRESS_WEIGHT, CELL_SPAN>(place) as usize
}

pub fn cell_tag(place: u64) -> u8
    ensures { result ≡ cell_tag place }
{
    field::<TAG_WEIGHT, TAG_SPAN>(place) as u8
}

pub fn cell_bits(place: u64) -> u32
    ensures { result ≡ cell_bits place }
{
    field::<BITS_WEIGHT, BITS_SPAN>(place) as u32
}

// The zeros of a cell place: what stands below the last field.
pub fn cell_zeros(place: u64) -> u64
    ensures { result ≡ cell_zeros place }
{
    place % BITS_WEIGHT
}

pub fn step_pc(place: u64) -> usize
    ensures { result ≡ step_pc place }
{
    field::<PC_WEIGHT, PC_SPAN>(place) as usize
}

pub fn step_sp(place: u64) -> usize
    ensures { result ≡ step_sp place }
{
    field::<SP_WEIGHT, CELL_SPAN>(place) as usize
}

pub fn step_fbr(place: u64) -> usize
    ensures { result ≡ step_fbr place }
{
    field::<FBR_WEIGHT, CELL_SPAN>(place) as usize
}

pub fn step_count(place: u64) -> usize
    ensures { result ≡ step_count place }
{
    field::<COUNT_WEIGHT, CELL_SPAN>(place) as usize
}

// The zeros of a step place.
pub fn step_zeros(place: u64) -> u64
    ensures { result ≡ step_zeros place }
{
    place % COUNT_WEIGHT
}
