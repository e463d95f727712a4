// The load's part that reads an image: its registers, cell after cell, byte after byte.
ghost use Rattle.std.specs.Prelude.{◌≡◌, ◌&&◌, ◌++◌, ◌+◌, ◌-◌, ◌*◌, ◌<◌, ◌≤◌, length, drop, replicate, MatchResult};
ghost use Rattle.rules.specs.Fields.{bits_of, padded};
ghost use Rattle.rules.specs.Lists.{every};
ghost use Rattle.rules.specs.State.{sound_cell, sound_cells, range_tests};
ghost use Rattle.rules.specs.SavedState.{told_cells, told_bytes, registers_in, cells_in, announced, bytes_in};
ghost use Rattle.rules.specs.declared.LoadRefusal.TheVariants.{StateEndsEarly};
ghost use Rattle.program.specs.Lent.{program_of};
ghost use Rattle.saved.specs.Cells.{cell_in};
ghost use Rattle.saved.specs.Reach.{most_cells, most_bytes};

use crate::head::{cell_of, registers_of};
use crate::layout::{BYTE_WIDTH, CELL_WIDTH, HEAD_WIDTH, announced, behind_cells};
use fields::{get, has_bits};
use program::Program;
use rules::{Cell, LoadRefusal, Registers};
use state::Lengths;

// A state in an image that has all that its head announces, with its registers beside the history of a load.
#[derive(Clone, Copy)]
pub(crate) struct StateImage<'a> {
    image: &'a [u8],
    pub(crate) registers: Registers,
    ghost whole: { announced registers.n registers.written ≤ length image.now * 8 },
    ghost few_cells: { registers.n ≤ most_cells },
    ghost few_bytes: { registers.written ≤ most_bytes },
}

impl<'a> StateImage<'a> {
    // The state in the image, beside a history of h places.
    pub(crate) fn of(image: &'a [u8], h: usize) -> Result<StateImage<'a>, LoadRefusal>
        ensures { MatchResult result
            (λ s. (s.image.now ≡ image.now) × (s.registers ≡ registers_in h (bits_of image.now)))
            (λ e. (length image.now * 8 < announced (told_cells (bits_of image.now)) (told_bytes (bits_of image.now))) × (e ≡ StateEndsEarly)) }
    {
        if !has_bits(image, 0, HEAD_WIDTH) {
            return Err(LoadRefusal::StateEndsEarly);
        }
        let registers = registers_of(get(image, 0, HEAD_WIDTH), h);
        if !has_bits(image, 0, announced(registers.n, registers.written)) {
            return Err(LoadRefusal::StateEndsEarly);
        }
        Ok(StateImage { image, registers })
    }

    // Cell i.
    fn cell(&self, i: usize) -> Cell
        requires { i < self.now.registers.n }
        ensures { result ≡ cell_in i (bits_of self.now.image.now) }
    {
        cell_of(get(self.image, behind_cells(i), CELL_WIDTH))
    }

    // Whether cell i may stand in a sound state of a program of `count` instructions.
    fn is_sound_cell(&self, i: usize, count: usize) -> bool
        requires { i < self.now.registers.n }
        ensures { result ≡ sound_cell count (cell_in i (bits_of self.now.image.now)).tag (cell_in i (bits_of self.now.image.now)).bits }
    {
        let cell = self.cell(i);
        state::is_sound_cell(count, cell.tag, cell.bits)
    }

    // Whether each cell may.
    fn are_sound_cells(&self, count: usize) -> bool
        ensures { result ≡ sound_cells count (cells_in self.now.registers.n (bits_of self.now.image.now)).tags (cells_in self.now.registers.n (bits_of self.now.image.now)).bits }
    {
        (0..self.registers.n).all(|i| self.is_sound_cell(i, count))
    }

    // Whether it is a state that a step takes, in this program and beside an output of this length.
    // Not inlined: in a function that answers an image the loops over the table and the cells would set each part of a refusal's answer at each turn.
    #[inline(never)]
    pub(crate) fn is_sound(&self, p: Program<'_>, output: usize) -> bool
        ensures { result ≡ (every (range_tests (program_of p.entry) self.now.registers self.now.registers.n self.now.registers.n self.now.registers.h output) && sound_cells p.entry.length (cells_in self.now.registers.n (bits_of self.now.image.now)).tags (cells_in self.now.registers.n (bits_of self.now.image.now)).bits) }
    {
        let r = self.registers;
        let lent = Lengths {
            bits: r.n,
            tags: r.n,
            history: r.h,
            output,
        };
        state::is_in_range(p, r, lent) && self.are_sound_cells(p.length)
    }

    // Whether less than a byte is left behind it, and that zero.
    pub(crate) fn is_padded(&self) -> bool
        ensures { result ≡ padded (drop (announced self.now.registers.n self.now.registers.written) (bits_of self.now.image.now)) }
    {
        fields::is_padded(
            self.image,
            announced(self.registers.n, self.registers.written),
        )
    }

    // Reads the cells.
    pub(crate) fn read_cells(&self, bits: &mut [u32], tags: &mut [u8])
        requires { (length bits.old ≡ self.now.registers.n) × (length tags.old ≡ self.now.registers.n) }
        ensures bits { bits.new ≡ (cells_in self.now.registers.n (bits_of self.now.image.now)).bits }
        ensures tags { tags.new ≡ (cells_in self.now.registers.n (bits_of self.now.image.now)).tags }
    {
        // Stays: by index: of a zip of two `iter_mut`s a proof learns no element (tried), and a loop for each slice would read each cell twice.
        for i in 0..self.registers.n {
            let cell = self.cell(i);
            bits[i] = cell.bits;
            tags[i] = cell.tag;
        }
    }

    // Reads the written output, and zeroes the output's rest.
    pub(crate) fn read_output(&self, output: &mut [u8])
        requires { self.now.registers.written ≤ length output.old }
        ensures { output.new ≡ bytes_in self.now.registers (bits_of self.now.image.now) ++ replicate (length output.old - self.now.registers.written) 0 }
    {
        let at = behind_cells(self.registers.n);
        let (bytes, rest) = output.split_at_mut(self.registers.written);
        for (i, byte) in bytes.iter_mut().enumerate() {
            *byte = get(self.image, at + i * BYTE_WIDTH, BYTE_WIDTH) as u8;
        }
        rest.fill(0);
    }
}
