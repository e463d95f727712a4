// The console program: reads a source from standard input and prints what the machine makes of it. A byte more than the longest source is
// read, so that one that is too long is told apart.
#![tactic(auto)]

ghost use Rattle.std.specs.Prelude.{◌+◌, take, IfSome, OnOk};
ghost use Rattle.std.specs.Io.KnownBytes.{Appends};
ghost use Rattle.rules.specs.Console.{printed};
ghost use Rattle.rules.specs.Sizes.{max_source};

use rules::sizes;
use std::io;
use std::io::{Read, Write};

// Prints what the machine makes of the source that is read: of an input and an output whose bytes are known, that and nothing else is written.
fn answer<R: Read, W: Write>(input: &mut R, output: &mut W) -> io::Result<()>
    ensures { OnOk result (IfSome (R.remaining input.old) (λ xs. Appends (W.contents output.old) (W.contents output.new) (printed (take (max_source + 1) xs)))) }
{
    let mut source = [0u8; sizes::MAX_SOURCE + 1];
    let n = reader::read_full(input, &mut source)?;
    let mut out = [0u8; console::OUTPUT_SIZE];
    let told = console::print(&source[..n], &mut out);
    output.write_all(&out[..told])
}

fn main(rt: HostRuntime) -> io::Result<()> {
    answer(&mut rt.stdin(), &mut rt.stdout())
}
