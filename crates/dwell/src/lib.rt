// The dwell reader of the door board: how long the doors stay open, in tenths of a second, read off cell 0 of a halted machine. It is lent what a step is
// lent, and writes nothing.
#![tactic(auto)]

ghost use Rattle.std.specs.Prelude.{◌≡◌};
ghost use Rattle.rules.specs.State.{memory};
ghost use Rattle.rules.specs.Dwell.{read_cell, dwell};
ghost use Rattle.program.specs.Lent.{program_of};

use program::Program;
use rules::{DwellRefusal, Registers, tags};

mod tenths;

// What cell 0 says: an INT is tenths, a FLOAT is seconds; 62 for another tag, 63 for a NaN.
#[tactic(auto, using(nearest::proofs::Equal::nan_read))]
fn read_cell(tag: u8, bits: u32) -> Result<u32, DwellRefusal>
    ensures { result ≡ read_cell (record { bits = bits; tag = tag }) }
{
    match tag {
        tags::INT => Ok(tenths::of_int(bits)),
        tags::FLOAT if floats::is_nan(bits) => Err(DwellRefusal::NotANumber),
        tags::FLOAT => Ok(tenths::of_seconds(bits)),
        _ => Err(DwellRefusal::OtherTag),
    }
}

// Reads the dwell: 10 as a step judges it, then 60 where the machine is not halted, 61 where SP is 0, and then by cell 0.
// Stays: the lent slices one by one, since a struct of them needs a lifetime for each, is taken apart where it comes in and is made anew at each call, and C lends them one by one.
#[tactic(auto, using(rules::proofs::Dwells::first_cell), unfolding(rules::specs::Dwell::dwell))]
pub fn dwell(
    p: Program<'_>,
    r: Registers,
    bits: &[u32],
    tags: &[u8],
    history: &[u64],
    output: &[u8],
) -> Result<u32, DwellRefusal>
    ensures { result ≡ dwell (program_of p.entry) r (memory bits.now tags.now history.now output.now) }
{
    if !state::is_sound(p, r, bits, tags, history, output) {
        return Err(DwellRefusal::StateBroken);
    }
    if r.halt != 1 {
        return Err(DwellRefusal::NotHalted);
    }
    if r.sp == 0 {
        return Err(DwellRefusal::StackEmpty);
    }
    read_cell(tags[0], bits[0])
}
