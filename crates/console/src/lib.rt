// What the console program prints for a source, in lent bytes.
#![tactic(auto)]

mod lines;
mod panel;
mod report;
mod values;
mod words;

ghost use Rattle.std.specs.Prelude.{◌≡◌, ◌++◌, ◌-◌, length, replicate};
ghost use Rattle.rules.specs.Console.{printed};
ghost use Rattle.console.specs.Room.{print_room};

pub use lines::put_cell;
use program::Program;
use rules::sizes;

// The bytes that are lent for what is printed: enough for every source.
pub const OUTPUT_SIZE: usize = 32_768;

// Assembles the source and runs the program, and writes what is printed for it; zeros after that, and its length told.
pub fn print(source: &[u8], out: &mut [u8; OUTPUT_SIZE]) -> usize
    ensures { (result ≡ length (printed source.now)) × (out.new ≡ printed source.now ++ replicate (print_room - length (printed source.now)) 0) }
{
    *out = [0; OUTPUT_SIZE];
    let mut table = [0u64; sizes::MAX_PROGRAM];
    match assembler::assemble(source, &mut table) {
        Ok(length) => report::put_run(
            out,
            Program {
                table: &table,
                length,
            },
        ),
        Err(fault) => lines::put_refused(out, fault),
    }
}
