// The bench program: judges standard input, of at most 65,536 bytes, and prints the verdict and, of an accepted file, its key rows.
#![tactic(auto)]

ghost use Rattle.std.specs.Prelude.{[], OnOk, IfSome};
ghost use Rattle.std.specs.Io.KnownBytes.{Appends};
ghost use Rattle.report.specs.Printed.{answer_of};

use std::io;
use std::io::{Read, Write};

// The answer to what stands in a reader. `vectors` has it with a name in front: each program is proved by itself, and `longest_file_too_long` is an error of this one.
fn judge<R: Read, W: Write>(out: &mut W, input: &mut R) -> io::Result<()>
    ensures { OnOk result (IfSome (R.remaining input.old) (λ xs. Appends (W.contents out.old) (W.contents out.new) (answer_of [] xs))) }
{
    let mut buf = [0u8; 65537];
    let n = report::read_full(input, &mut buf)?;
    if 65536 < n {
        return writeln!(out, "too long");
    }
    report::print(out, &buf[..n])
}

fn main(rt: HostRuntime) -> io::Result<()> {
    judge(&mut io::writer(&rt), &mut rt.stdin())
}
