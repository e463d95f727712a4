// An operand read: its item as one word, its kind, its start in 20 bits, its code in eight and a value or a length in 32; a finished item is the
// table's place.
ghost use Rattle.std.specs.Prelude.{◌≡◌, List, ℕ, ◌≤◌, ◌<◌, length};
ghost use Rattle.rules.specs.Sizes.{max_source};
ghost use Rattle.rules.specs.Instructions.{codes, kind_of};
ghost use Rattle.rules.specs.Assemble.{plain_number, target_number, target_label, target_of, operand_of_kind};
ghost use Rattle.rules.specs.Bytes.{is_word};
ghost use Rattle.assembler.specs.Held.{PackedAs, piece, reading_of};

use crate::classes;
use program::table::CODE_WEIGHT;
use rules::{Kind, NumeralFault, TextRefusal, sizes, words};

// The kinds of item: a finished one; a number target; a label target; a number target that no program is long enough for.
// Stays: an item is one word, since it stands in the lent table (no heap: a rule of the project); its kind is a number, since it is a field of that word: an enum would be made of the number first.
pub(crate) const FINISHED: u64 = 0;

pub(crate) const NUMBERED: u64 = 1;

pub(crate) const LABELLED: u64 = 2;

const BEYOND: u64 = 3;

// The weight of a field of an item is what 1 counts for in it, and its span is how many numbers it has room for.
pub(crate) const KIND_WEIGHT: u64 = 0x1000_0000_0000_0000;

pub(crate) const START_WEIGHT: u64 = 0x100_0000_0000;

pub(crate) const START_SPAN: u64 = 0x10_0000;

pub(crate) const CODE_SPAN: u64 = 0x100;

// The highest number target that a program can be long enough for.
const MAX_TARGET: u32 = sizes::MAX_PROGRAM as u32;

// An item's word.
fn word_of(kind: u64, start: usize, code: usize, low: u32) -> u64
    requires { (kind ≤ 3) × ((start ≤ max_source) × (code < codes)) }
    ensures { PackedAs kind start code low result }
{
    kind * KIND_WEIGHT + start as u64 * START_WEIGHT + code as u64 * CODE_WEIGHT + u64::from(low)
}

// A number, bits or a decimal: the table's place is known at once.
fn plain_word(code: usize, number: Result<u32, NumeralFault>) -> Result<u64, TextRefusal>
    requires { code < codes }
    ensures { (source : List ℕ) → plain_number code number ≡ reading_of source result }
{
    match number {
        Ok(value) => Ok(word_of(FINISHED, 0, code, value)),
        Err(NumeralFault::WrongForm) => Err(TextRefusal::OperandForm),
        Err(NumeralFault::OutOfRange) => Err(TextRefusal::OperandRange),
    }
}

// A number target: whether the program is long enough for it is told after the last token.
fn target_word(
    code: usize,
    start: usize,
    number: Result<u32, NumeralFault>,
) -> Result<u64, TextRefusal>
    requires { (code < codes) × (start ≤ max_source) }
    ensures { (source : List ℕ) → target_number code start number ≡ reading_of source result }
{
    match number {
        Ok(value) => Ok(word_of(NUMBERED, start, code, value)),
        Err(NumeralFault::WrongForm) => Err(TextRefusal::OperandForm),
        Err(NumeralFault::OutOfRange) => Ok(word_of(BEYOND, start, code, 0)),
    }
}

// A label target.
fn name_word(code: usize, start: usize, name: &[u8]) -> Result<u64, TextRefusal>
    requires { (code < codes) × (start ≤ max_source) }
    ensures { (source : List ℕ) → piece source start (length name.now) ≡ name.now → target_label code start name.now ≡ reading_of source result }
{
    if name.len() > sizes::MAX_LABEL {
        return Err(TextRefusal::LabelTooLong);
    }
    Ok(word_of(LABELLED, start, code, name.len() as u32))
}

// A target: a label or a number.
fn read_target(code: usize, start: usize, t: &[u8]) -> Result<u64, TextRefusal>
    requires { (code < codes) × (start ≤ max_source) }
    ensures { (source : List ℕ) → piece source start (length t.now) ≡ t.now → target_of code start t.now (is_word t.now) ≡ reading_of source result }
{
    if classes::is_word(t) {
        return name_word(code, start, t);
    }
    target_word(code, start, operands::number_of(t, 0, MAX_TARGET))
}

// The operand of the code, the text t, which starts at `start`.
pub(crate) fn read_operand(code: usize, start: usize, t: &[u8]) -> Result<u64, TextRefusal>
    requires { (code < codes) × (start ≤ max_source) }
    ensures { (source : List ℕ) → piece source start (length t.now) ≡ t.now → operand_of_kind (kind_of code) code start t.now ≡ reading_of source result }
{
    match program::kinds::kind_of(code) {
        Kind::Bare => Err(TextRefusal::OperandForm),
        Kind::Immediate => plain_word(code, operands::number_of(t, words::LOWEST, words::HIGHEST)),
        Kind::Pattern => plain_word(code, operands::float_of(t)),
        Kind::Offset => plain_word(
            code,
            operands::number_of(t, sizes::MAX_OFFSET, sizes::MAX_OFFSET),
        ),
        Kind::Target => read_target(code, start, t),
        Kind::Character => plain_word(code, operands::number_of(t, 0, sizes::MAX_CHARACTER)),
    }
}
