// The nine registers in a lent slice, in the order N, H, PC, SP, FBR, HALT, U, kept, written.
ghost use Rattle.std.specs.Prelude.{◌≡◌, length};
ghost use Rattle.sam_c.specs.Calls.{of_length, not_registers, not_registers_saved, not_registers_loaded, register_count, list_of, registers_of};

use crate::told;
use numbers::Numbered;
use rules::{LoadRefusal, MachineRefusal, Registers, sizes};

// How many there are.
pub(crate) const COUNT: usize = 9;

// "broken state or table", where a call is lent registers of another length.
pub(crate) const BROKEN: u32 = MachineRefusal::Broken as u32;

// "at reset N or H outside Sizes, ..; at a run a limit above 1,000,000", which comes before it.
const OUTSIDE_SIZES: u32 = MachineRefusal::OutsideSizes as u32;

// The number of a reset or a run that is lent registers of another length, by whether all else is within its sizes.
pub(crate) fn refused(sized: bool) -> u32
    ensures { result ≡ not_registers sized }
{
    if sized { BROKEN } else { OUTSIDE_SIZES }
}

// The number of a save that is lent registers of another length, and an image of so many bytes.
pub(crate) fn refused_save(image: usize) -> u32
    ensures { result ≡ not_registers_saved image }
{
    if image == sizes::STATE_SIZE {
        BROKEN
    } else {
        told::NOT_ITS_LENGTH
    }
}

// The number of a load that is lent registers of another length, by what it is refused with before 10, if anything.
pub(crate) fn refused_load(entry: Result<(), LoadRefusal>) -> u32
    ensures { result ≡ not_registers_loaded entry }
{
    match entry {
        Ok(()) => BROKEN,
        Err(refusal) => refusal.number(),
    }
}

// Reads them, where the slice has so many numbers.
pub(crate) fn read(registers: &[u64]) -> Option<Registers>
    ensures { result ≡ of_length register_count registers.now (Some (registers_of registers.now)) None }
{
    let &[n, h, pc, sp, fbr, halt, used, kept, written] = registers else {
        return None;
    };
    Some(Registers {
        n: n as usize,
        h: h as usize,
        pc: pc as usize,
        sp: sp as usize,
        fbr: fbr as usize,
        halt: halt as usize,
        used: used as usize,
        kept: kept as usize,
        written: written as usize,
    })
}

// Writes them.
pub(crate) fn write(registers: &mut [u64], r: Registers)
    requires { length registers.old ≡ register_count }
    ensures { registers.new ≡ list_of r }
{
    let listed = [
        r.n, r.h, r.pc, r.sp, r.fbr, r.halt, r.used, r.kept, r.written,
    ];
    registers.copy_from_slice(&listed.map(|x| x as u64));
}
