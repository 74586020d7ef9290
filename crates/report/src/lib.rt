// What the programs print about a file: its verdict and, if it is accepted, its key rows. Document 01's bench lines, with request C-15's fifth number.
#![tactic(auto)]

ghost use Rattle.std.specs.Prelude.{◌≤◌, ◌<◌, ◌++◌, length, take, codes, IfOk, OnOk};
ghost use Rattle.std.specs.Io.KnownBytes.{Appends, Consumes, IsAtEnd};
ghost use Rattle.report.specs.Printed.{row_line, key_lines, lines_of};

use paper::Row;
use std::io;
use std::io::{Read, Write};

// A key line: key, kind, first byte, length, place of the entry.
fn print_row<W: Write>(out: &mut W, row: Row) -> io::Result<()>
    ensures { OnOk result (Appends (W.contents out.old) (W.contents out.new) (row_line row)) }
{
    writeln!(
        out,
        "{} {} {} {} {}",
        row.key, row.kind, row.first, row.len, row.entry
    )
}

// The line of K, and a line for each of the K rows of an accepted file.
fn print_rows<W: Write>(out: &mut W, rows: &[Row]) -> io::Result<()>
    ensures { OnOk result (Appends (W.contents out.old) (W.contents out.new) (key_lines (length rows.now) rows.now)) }
{
    writeln!(out, "keys {}", rows.len())?;
    for row in rows {
        print_row(out, *row)?;
    }
    Ok(())
}

// Verdict and place on one line; of an accepted file then K and the key rows, as the call wrote them to 256 lent rows.
pub fn print<W: Write>(out: &mut W, file: &[u8]) -> io::Result<()>
    ensures { OnOk result (Appends (W.contents out.old) (W.contents out.new) (lines_of file.now)) }
{
    let lent = rows::lend(file);
    let counted = lent.counted;
    let verdict = counted.verdict;
    writeln!(out, "verdict {} place {}", verdict.number, verdict.place)?;
    if verdict.number == 0 {
        let rows = &lent.rows[..counted.keys as usize];
        print_rows(out, rows)?;
    }
    Ok(())
}

// The same, with a name and a space in front.
pub fn print_named<W: Write>(out: &mut W, name: &[u8], file: &[u8]) -> io::Result<()>
    ensures { OnOk result (Appends (W.contents out.old) (W.contents out.new) (name.now ++ (codes " " ++ lines_of file.now))) }
{
    out.write_all(name)?;
    out.write_all(b" ")?;
    print(out, file)
}

// Reads until buf is full or the input ends, and returns how many bytes it put at the start of buf. An input that ends is no error here, as it is for
// std's read_exact, and so the loop is written out.
pub fn read_full<R: Read>(input: &mut R, buf: &mut [u8]) -> io::Result<usize>
    ensures fits { IfOk result (λ n. n ≤ length buf.new) }
    ensures bytes { IfOk result (λ n. Consumes (R.remaining input.old) (R.remaining input.new) (take n buf.new)) }
    ensures end { IfOk result (λ n. n < length buf.new → IsAtEnd (R.remaining input.new)) }
{
    let mut n = 0;
    while n < buf.len() {
        match input.read(&mut buf[n..])? {
            0 => break,
            more => n += more,
        }
    }
    Ok(n)
}
