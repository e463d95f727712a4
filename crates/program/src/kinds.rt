// The kinds of operand: which code has which, and which operands are in range.
ghost use Rattle.std.specs.Prelude.{◌≡◌};
ghost use Rattle.rules.specs.Instructions.{kind_of};
ghost use Rattle.rules.specs.Table.{within};

use rules::{Kind, codes, sizes};

// The kind of operand of the instruction with the code: none past the last.
#[tactic(auto, unfolding(rules::specs::Instructions::kind_of, rules::specs::Instructions::row_of, rules::specs::Instructions::rows))]
pub fn kind_of(code: usize) -> Kind
    ensures { result ≡ kind_of code }
{
    // Stays: with one arm for the codes of a kind, a place takes up to six machine instructions more (bar: the judging of a table at every call must not cost more than before).
    match code {
        codes::PUSHIMM => Kind::Immediate,
        codes::PUSHIMMF => Kind::Pattern,
        codes::ADDSP => Kind::Offset,
        codes::PUSHOFF => Kind::Offset,
        codes::STOREOFF => Kind::Offset,
        codes::JUMP => Kind::Target,
        codes::JUMPC => Kind::Target,
        codes::JSR => Kind::Target,
        codes::PUSHIMMPA => Kind::Target,
        codes::PUSHIMMCH => Kind::Character,
        _ => Kind::Bare,
    }
}

// Whether 32 bits are an operand of the kind, in a program of `count` instructions.
pub fn is_within(kind: Kind, count: usize, operand: u32) -> bool
    ensures { result ≡ within kind count operand }
{
    match kind {
        Kind::Bare => operand == 0,
        Kind::Immediate | Kind::Pattern => true,
        Kind::Offset => operand <= sizes::MAX_OFFSET || sizes::MIN_OFFSET <= operand,
        Kind::Target => operand as usize <= count,
        Kind::Character => operand <= sizes::MAX_CHARACTER,
    }
}
