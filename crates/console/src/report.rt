// The report of a run: how it ended, the registers, each live cell, and what was written.
ghost use Rattle.std.specs.Prelude.{◌≡◌, [], ◌*◌, ◌≤◌, ◌<◌, length};
ghost use Rattle.rules.specs.Sizes.{max_output};
ghost use Rattle.program.specs.Lent.{program_of};
ghost use Rattle.rules.specs.Cells.{cells};
ghost use Rattle.rules.specs.State.{memory};
ghost use Rattle.rules.specs.Console.{cell_lines, report, console_cells, console_run};
ghost use Rattle.digits.specs.Put.{Put};

use crate::lines::{put_cell, put_ending, put_registers};
use crate::panel::put_out;
use numbers::Numbered;
use program::Program;
use rules::{Cell, Run, sizes, tags};

// "The console program owns 1,000 cells, all INT 0, has H = 0 and limit 100,000"
const CELLS: usize = 1_000;

const PLACES: usize = 0;

const LIMIT: usize = 100_000;

// Writes the lines of the first `sp` cells.
#[tactic(auto, using(crate::proofs::Writing::cell_short))]
fn put_cells(out: &mut [u8], at: usize, sp: usize, bits: &[u32], tags: &[u8]) -> usize
    requires { (at ≤ 128) × (sp < console_cells) × (length bits.now ≡ console_cells) × (length tags.now ≡ console_cells) }
    ensures { Put out.old out.new at (cell_lines (cells bits.now tags.now) 0 sp) result × (result ≤ 29 * sp) }
{
    let mut told = 0;
    // Stays: by number, since the number is printed and the two slices are read at it; `zip` with `enumerate` (as in saved) is no shorter.
    for i in 0..sp {
        let cell = Cell {
            bits: bits[i],
            tag: tags[i],
        };
        told += put_cell(out, at + told, i, cell);
    }
    told
}

// Writes the report of a run that left these cells and this output.
fn put_report(out: &mut [u8], ran: Run, bits: &[u32], tags: &[u8], output: &[u8]) -> usize
    requires sp_lt_console_cells { (ran.registers.sp < console_cells) × (length bits.now ≡ console_cells) × (length tags.now ≡ console_cells) }
    requires written_le_max_output { (ran.registers.written ≤ max_output) × (length output.now ≡ max_output) }
    ensures { Put out.old out.new 0 (report (record { answer = ran; memory = memory bits.now tags.now [] output.now })) result }
{
    let r = ran.registers;
    let a = put_ending(out, ran.ending.number() as usize, ran.steps);
    let b = a + put_registers(out, a, r);
    let c = b + put_cells(out, b, r.sp, bits, tags);
    c + put_out(out, c, &output[..r.written])
}

// Runs a program on 1,000 cells, all INT 0, with no history, 256 bytes of output and at most 100,000 steps, and writes the report.
pub(crate) fn put_run(out: &mut [u8], p: Program<'_>) -> usize
    ensures { Put out.old out.new 0 (report (console_run (program_of p.entry))) result }
{
    let mut bits = [0u32; CELLS];
    let mut tags = [tags::INT; CELLS];
    let mut history = [0u64; PLACES];
    let mut output = [0u8; sizes::MAX_OUTPUT];
    let start = state::reset(p, &mut bits, &mut tags, &mut history, &mut output);
    let ran = machine::run::run(
        p,
        state::registers_begun(start),
        &mut bits,
        &mut tags,
        &mut history,
        &mut output,
        LIMIT,
    );
    put_report(out, ran, &bits, &tags, &output)
}
