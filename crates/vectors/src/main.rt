// Judges each file that an argument names, of at most 65,536 bytes, and prints of each what the bench program prints, behind its name.
#![tactic(auto)]

ghost use Rattle.std.specs.Prelude.{◌++◌, codes, OnOk, IfSome};
ghost use Rattle.std.specs.Io.KnownBytes.{Appends};
ghost use Rattle.report.specs.Printed.{answer_of};

use std::fs::File;
use std::io::{Read, Write};
use std::rt::Files;
use std::{env, io};

// The answer to what stands in a reader, behind its name. `bench` has it without one: each program is proved by itself, and `no_name` is an error of this one.
fn judge<R: Read, W: Write>(out: &mut W, name: &[u8], input: &mut R) -> io::Result<()>
    ensures { OnOk result (IfSome (R.remaining input.old) (λ xs. Appends (W.contents out.old) (W.contents out.new) (answer_of (name.now ++ codes " ") xs))) }
{
    let mut buf = [0u8; 65537];
    let n = report::read_full(input, &mut buf)?;
    if 65536 < n {
        return writeln!(out, "too long");
    }
    report::print_named(out, name, &buf[..n])
}

// The file of a name, which has at most 256 bytes.
fn judge_one<W: Write>(files: &impl Files, out: &mut W, name: &str) -> io::Result<()> {
    if 256 < name.len() {
        return writeln!(out, "no such argument");
    }
    match File::open(files, name) {
        Ok(mut file) => judge(out, name.as_bytes(), &mut file),
        Err(_) => writeln!(out, "cannot open"),
    }
}

// Argument 0 is the program's own name.
fn main(rt: HostRuntime) -> io::Result<()> {
    for name in env::args(&rt)?.skip(1) {
        judge_one(&rt, &mut io::writer(&rt), name.as_str())?;
    }
    Ok(())
}
