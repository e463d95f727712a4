// The places of a table.
ghost use Rattle.std.specs.Prelude.{◌≡◌};
ghost use Rattle.rules.specs.Table.{code_of, operand_of, sound_place};

use crate::kinds::{is_within, kind_of};
use rules::codes;

// What a code counts for in a place: its operand stands in the 32 bits after it.
pub const CODE_WEIGHT: u64 = 0x1_0000_0000;

// The code in a place, with whatever stands where 26 zeros belong.
pub fn code_of(place: u64) -> usize
    ensures { result ≡ code_of place }
{
    (place / CODE_WEIGHT) as usize
}

// The operand in a place.
pub fn operand_of(place: u64) -> u32
    ensures { result ≡ operand_of place }
{
    (place % CODE_WEIGHT) as u32
}

// Whether the place can be assembled, in a program of `count` instructions.
#[tactic(auto, unfolding(rules::specs::Table::sound_place))]
pub(crate) fn is_sound_place(count: usize, place: u64) -> bool
    ensures { result ≡ sound_place count place }
{
    let code = code_of(place);
    code < codes::COUNT && is_within(kind_of(code), count, operand_of(place))
}
