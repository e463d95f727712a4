// The names of the instructions, each as one number, its word: the letters in base 32, the first lowest, A = 1 to Z = 26.
ghost use Rattle.std.specs.Prelude.{◌≡◌, length, get_or};
ghost use Rattle.rules.specs.Instructions.{name_of};
ghost use Rattle.rules.specs.Assemble.{code_named};
ghost use Rattle.program.specs.NameWords.{word_of, text_word, named};

use rules::codes;

// The length of the longest name.
const NAME_SIZE: usize = 9;

// A letter has five bits of a word: 0 is past the name's end.
const LETTER_BITS: usize = 5;

const LETTER_SPAN: u64 = 32;

// The byte before A.
const BEFORE_A: u8 = b'A' - 1;

// The word of a code's name: 0 past the last code.
// Stays: names as numbers, since a table of their bytes is put on the stack anew for each byte that is read of it (docs/PERFORMANCE.md), and a text is compared as one number.
#[tactic(auto, unfolding(crate::specs::NameWords::word_of, rules::specs::Instructions::name_of, rules::specs::Instructions::names, rules::specs::Instructions::rows, rules::specs::Lists::text))]
fn name_word(code: usize) -> u64
    ensures { result ≡ word_of (name_of code) }
{
    match code {
        codes::STOP => 0x83e93,
        codes::PUSHIMM => 0x35a944eb0,
        codes::PUSHIMMF => 0x335a944eb0,
        codes::DUP => 0x42a4,
        codes::SWAP => 0x806f3,
        codes::ADD => 0x1081,
        codes::SUB => 0xab3,
        codes::TIMES => 0x132b534,
        codes::DIV => 0x5924,
        codes::MOD => 0x11ed,
        codes::ADDF => 0x31081,
        codes::SUBF => 0x30ab3,
        codes::TIMESF => 0xd32b534,
        codes::DIVF => 0x35924,
        codes::AND => 0x11c1,
        codes::OR => 0x24f,
        codes::NAND => 0x2382e,
        codes::NOR => 0x49ee,
        codes::XOR => 0x49f8,
        codes::NOT => 0x51ee,
        codes::BITAND => 0x8e0d122,
        codes::BITOR => 0x127d122,
        codes::BITNAND => 0x11c175122,
        codes::BITNOR => 0x24f75122,
        codes::BITXOR => 0x24fc5122,
        codes::BITNOT => 0x28f75122,
        codes::CMP => 0x41a3,
        codes::CMPF => 0x341a3,
        codes::GREATER => 0x48b409647,
        codes::LESS => 0x9ccac,
        codes::EQUAL => 0xc0d625,
        codes::ISNIL => 0xc4ba69,
        codes::ISPOS => 0x137c269,
        codes::ISNEG => 0x72ba69,
        codes::PUSHSP => 0x21344eb0,
        codes::POPSP => 0x109c1f0,
        codes::PUSHFBR => 0x484644eb0,
        codes::POPFBR => 0x242341f0,
        codes::LINK => 0x5b92c,
        codes::ADDSP => 0x1099081,
        codes::PUSHIND => 0x11c944eb0,
        codes::STOREIND => 0x2392593e93,
        codes::PUSHOFF => 0x18cf44eb0,
        codes::STOREOFF => 0x319e593e93,
        codes::JUMP => 0x836aa,
        codes::JUMPC => 0x3836aa,
        codes::JUMPIND => 0x11c9836aa,
        codes::JSR => 0x4a6a,
        codes::JSRIND => 0x8e4ca6a,
        codes::PUSHIMMPA => 0x1835a944eb0,
        codes::ITOF => 0x33e89,
        codes::FTOI => 0x4be86,
        codes::PUSHIMMCH => 0x81b5a944eb0,
        codes::WRITECH => 0x2065a2657,
        _ => 0,
    }
}

// The byte of a name at place i: 0 past its end.
pub fn name_byte(code: usize, i: usize) -> u8
    ensures { result ≡ get_or (name_of code) i 0 }
{
    if NAME_SIZE <= i {
        return 0;
    }
    let letter = (name_word(code) >> (i * LETTER_BITS)) % LETTER_SPAN;
    if letter == 0 {
        0
    } else {
        BEFORE_A + letter as u8
    }
}

// The length of a name: 0 past the last code.
pub fn name_length(code: usize) -> usize
    ensures { result ≡ length (name_of code) }
{
    let mut rest = name_word(code);
    for n in 0..NAME_SIZE {
        if rest == 0 {
            return n;
        }
        rest /= LETTER_SPAN;
    }
    NAME_SIZE
}

// The word of a text that is like a name: there is none where it is too long or not of capital letters.
#[tactic(auto, using(crate::proofs::NameWords::too_long_lem, crate::proofs::NameWords::nothing_read, crate::proofs::NameWords::read_more), unfolding(crate::specs::NameWords::capital))]
fn text_word(t: &[u8]) -> Option<u64>
    ensures { result ≡ text_word t.now }
{
    if NAME_SIZE < t.len() {
        return None;
    }
    let mut word = 0;
    for b in t.iter().rev() {
        if !b.is_ascii_uppercase() {
            return None;
        }
        word = word * LETTER_SPAN + (*b - BEFORE_A) as u64;
    }
    Some(word)
}

// The code that the text names.
pub fn code_named(t: &[u8]) -> Option<usize>
    ensures { result ≡ named (code_named t.now) }
{
    let word = text_word(t)?;
    (0..codes::COUNT).find(|code| name_word(*code) == word)
}
