// Saved states: a machine's state as an image of bits, and a machine that goes on from one.
#![tactic(auto)]

use program::Program;
use reading::StateImage;
use rules::{LoadRefusal, Registers, SaveRefusal, sizes};
use state::Lengths;

mod head;
mod layout;
mod reading;
mod writing;

ghost use Rattle.std.specs.Prelude.{◌≡◌, ◌≤◌, MatchResult, Ok, Err, length};
ghost use Rattle.rules.specs.Lists.{every};
ghost use Rattle.rules.specs.Fields.{bits_of};
ghost use Rattle.rules.specs.State.{memory};
ghost use Rattle.rules.specs.SavedState.{registers_in, lent_sizes, not_loaded, loaded, registers_resumed, entry, save, load};
ghost use Rattle.program.specs.Lent.{program_of};
ghost use Rattle.saved.specs.Outcomes.{saving, loading};

// Saves a machine's state: the image, then zeros, and its length told.
// Stays: the lent slices one by one, since a struct of them needs a lifetime for each, is taken apart where it comes in and is made anew at each call, and C lends them one by one.
pub fn save(
    p: Program<'_>,
    r: Registers,
    bits: &[u32],
    tags: &[u8],
    history: &[u64],
    output: &[u8],
    image: &mut [u8],
) -> Result<usize, SaveRefusal>
    ensures { saving result image.new ≡ save (program_of p.entry) r (memory bits.now tags.now history.now output.now) image.old }
{
    if image.len() != sizes::STATE_SIZE {
        return Err(SaveRefusal::ImageLength);
    }
    image.fill(0);
    if !state::is_sound(p, r, bits, tags, history, output) {
        return Err(SaveRefusal::UnsoundState);
    }
    Ok(writing::write_state(r, bits, tags, output, image))
}

// Whether lent slices of these lengths take in n saved cells: where not, a load answers 67.
fn are_lent_sizes(lent: Lengths, n: usize) -> bool
    ensures { result ≡ every (lent_sizes n lent.bits lent.tags lent.history lent.output) }
{
    lent.bits == n
        && lent.tags == n
        && lent.history <= sizes::MAX_HISTORY
        && lent.output <= sizes::MAX_OUTPUT
}

// The state that an image holds, or what a load is refused with before its table and its state are judged, by the lengths of what is lent: 41, then 67.
fn entered<'a>(image: &'a [u8], lent: Lengths) -> Result<StateImage<'a>, LoadRefusal>
    ensures { MatchResult result
        (λ s. (s.image.now ≡ image.now) × (s.registers ≡ registers_in lent.history (bits_of image.now)) × (entry image.now lent.bits lent.tags lent.history lent.output ≡ Ok tt))
        (λ e. entry image.now lent.bits lent.tags lent.history lent.output ≡ Err e) }
{
    let saved = StateImage::of(image, lent.history)?;
    if !are_lent_sizes(lent, saved.registers.n) {
        return Err(LoadRefusal::OtherSizes);
    }
    Ok(saved)
}

// What a load is refused with before its table and its state are judged.
pub fn entry(image: &[u8], lent: Lengths) -> Result<(), LoadRefusal>
    ensures { result ≡ entry image.now lent.bits lent.tags lent.history lent.output }
{
    entered(image, lent)?;
    Ok(())
}

// The state that a load is to take in, or what it is refused with: 41, 67, 10, 45 in this order.
fn verdict<'a>(
    image: &'a [u8],
    p: Program<'_>,
    bits: &[u32],
    tags: &[u8],
    history: &[u64],
    output: &[u8],
) -> Result<StateImage<'a>, LoadRefusal>
    ensures { MatchResult result
        (λ s. (s.image.now ≡ image.now) × (length bits.now ≡ s.registers.n) × (length tags.now ≡ s.registers.n) × (s.registers.written ≤ length output.now)
        × (load image.now (program_of p.entry) (memory bits.now tags.now history.now output.now) ≡ loaded s.registers (bits_of image.now) (memory bits.now tags.now history.now output.now)))
        (λ e. load image.now (program_of p.entry) (memory bits.now tags.now history.now output.now) ≡ not_loaded (memory bits.now tags.now history.now output.now) e) }
{
    let saved = entered(image, Lengths::of(bits, tags, history, output))?;
    if !saved.is_sound(p, output.len()) {
        return Err(LoadRefusal::OutsideRanges);
    }
    if !saved.is_padded() {
        return Err(LoadRefusal::StatePadding);
    }
    Ok(saved)
}

// Loads a saved state: cells, tags, written output and registers as they were saved, history and the output's rest zero; or refuses and changes nothing.
pub fn load(
    image: &[u8],
    p: Program<'_>,
    bits: &mut [u32],
    tags: &mut [u8],
    history: &mut [u64],
    output: &mut [u8],
) -> Result<Registers, LoadRefusal>
    ensures { loading result bits.new tags.new history.new output.new ≡ load image.now (program_of p.entry) (memory bits.old tags.old history.old output.old) }
{
    let saved = verdict(image, p, bits, tags, history, output)?;
    saved.read_cells(bits, tags);
    history.fill(0);
    saved.read_output(output);
    Ok(saved.registers)
}

// The registers after a load: those that it answers, and zero registers of one that is refused.
pub fn registers_resumed(resumed: Result<Registers, LoadRefusal>) -> Registers
    ensures { result ≡ registers_resumed resumed }
{
    resumed.unwrap_or(state::zero_registers(0, 0))
}
