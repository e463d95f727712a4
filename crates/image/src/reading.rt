// The unpacker's part that reads, from left to right.
ghost use Rattle.std.specs.Prelude.{◌≡◌, ◌+◌, ◌*◌, ◌^◌, ◌<◌, ◌≤◌, length, take, drop, replicate, IfOk, MatchResult, OnOk};
ghost use Rattle.rules.specs.Sizes.{max_program, image_size};
ghost use Rattle.rules.specs.Instructions.{codes};
ghost use Rattle.rules.specs.Fields.{value, bits_of};
ghost use Rattle.rules.specs.Image.{take_operand, take_one, unpacked, filed};
ghost use Rattle.rules.specs.declared.ImageRefusal.TheVariants.{EndsEarly};
ghost use Rattle.fields.specs.Within.{widest};

use crate::operands::{CODE_WIDTH, COUNT_WIDTH, table_bits, width_of};
use fields::{get, has_bits, is_padded};
use program::kinds::{is_within, kind_of};
use program::table::CODE_WEIGHT;
use rules::{ImageRefusal, Taken, codes, sizes};

// The number in the `width` bits from bit `at` on.
fn take_number(image: &[u8], at: usize, width: usize) -> Result<u64, ImageRefusal>
    requires { width ≤ widest }
    ensures small { IfOk result (λ n. n < 2 ^ width) }
    ensures told { MatchResult result
        (λ n. (width ≤ length (drop at (bits_of image.now))) × (n ≡ value (take width (drop at (bits_of image.now)))))
        (λ e. (length image.now * 8 < at + width) × (e ≡ EndsEarly)) }
{
    if !has_bits(image, at, width) {
        return Err(ImageRefusal::EndsEarly);
    }
    Ok(get(image, at, width))
}

// The operand of a code, at bit `at`, in a program of `count` instructions.
fn take_operand(image: &[u8], at: usize, count: usize, code: usize) -> Result<Taken, ImageRefusal>
    requires { (at ≤ length image.now * 8) × (code < codes) }
    ensures { result ≡ take_operand count code (drop at (bits_of image.now)) }
{
    let kind = kind_of(code);
    let width = width_of(kind);
    let operand = table_bits(kind, take_number(image, at, width)? as u32);
    if !is_within(kind, count, operand) {
        return Err(ImageRefusal::OperandOutside);
    }
    Ok(Taken {
        place: code as u64 * CODE_WEIGHT + operand as u64,
        width: CODE_WIDTH + width,
    })
}

// The instruction at bit `at`, in a program of `count` instructions.
fn take_instruction(image: &[u8], at: usize, count: usize) -> Result<Taken, ImageRefusal>
    requires { at ≤ image_size * 8 }
    ensures { result ≡ take_one count (drop at (bits_of image.now)) }
{
    let code = take_number(image, at, CODE_WIDTH)? as usize;
    if codes::COUNT <= code {
        return Err(ImageRefusal::CodeTooHigh);
    }
    take_operand(image, at + CODE_WIDTH, count, code)
}

// Unpacks into a table: its places, then zeros. What a refusal leaves is not told.
pub(crate) fn read_image(image: &[u8], table: &mut [u64]) -> Result<usize, ImageRefusal>
    requires { length table.old ≡ max_program }
    ensures answer { result ≡ (filed table.old (unpacked image.now)).answer }
    ensures output { OnOk result (table.new ≡ (filed table.old (unpacked image.now)).output) }
{
    let count = take_number(image, 0, COUNT_WIDTH)? as usize;
    if sizes::MAX_PROGRAM < count {
        return Err(ImageRefusal::CountTooHigh);
    }
    table.fill(0);
    let mut at = COUNT_WIDTH;
    for place in &mut table[..count] {
        let taken = take_instruction(image, at, count)?;
        *place = taken.place;
        at += taken.width;
    }
    if !is_padded(image, at) {
        return Err(ImageRefusal::BadPadding);
    }
    Ok(count)
}
