// A trial of the crates `layout` and `lines`: a small table that is not the image's is judged by the same functions. It prints the verdict of six files.
#![tactic(auto)]

ghost use Rattle.std.specs.Prelude.{◌≡◌, ◌<◌};
ghost use Rattle.outcomes.specs.Ruled.{ruled};
ghost use Rattle.layout.specs.Opening.{LaidAt};
ghost use Rattle.trial.specs.Trial.{trial_of};

use layout::{Cell, Directory, cells};
use lines::{LONG, Line, SHORT, Tabled, table};
use paper::Verdict;
use std::io;

// ---- the table

// A type that the image's table does not name.
const RATIONAL: usize = 5;

const LINES: [Line; SLOTS] = table![
    [254, Never, LONG, LONG, 1, 1],
    [256, Always, SHORT, LONG, 1, 1],
    [282, Always, RATIONAL, RATIONAL, 1, 1],
    [296, Never, SHORT, SHORT, 1, 1],
    [34853, Never, LONG, LONG, 1, 1],
];

// The line of each tag, from 0, which is its slot in what a pass finds too. Plain numbers, since they index lists, as those of the image's table are.
const SUBFILE: usize = 0;

const WIDTH: usize = 1;

const RESOLUTION: usize = 2;

const UNIT: usize = 3;

const POSITION: usize = 4;

// How many there are.
const SLOTS: usize = 5;

// The factor for which no two of them share a cell.
const FACTOR: u16 = 33;

const CELLS: [Cell; layout::CELLS] = cells![
    LINES: SUBFILE, WIDTH, _, _, RESOLUTION, _, UNIT, _, _, _, _, _, POSITION, _, _, _, _, _, _, _, _, _, _, _, _, _, _, _, _, _, _, _
];

// ---- the judgement

// Rules 6, 7, 9 and 10, of a file whose directory is laid at a place. No line asks whether the picture is in tiles.
fn trial_laid(file: &[u8], d: Directory) -> Result<(), Verdict>
    requires { LaidAt file.now d.big d.at d.count }
    ensures { result ≡ ruled (trial_of file.now) tt }
{
    let mut found = [layout::absent(); SLOTS];
    let s = d.entries(file).scan(&CELLS, FACTOR, file.len(), &mut found);
    s.judged?;
    let tabled = Tabled {
        lines: &LINES,
        found: &found,
    };
    outcomes::rule(9, tabled.needed_tags(false))?;
    outcomes::rule(10, tabled.fitting_tags())
}

// Rules 1 to 7, 9 and 10, by the trial's table.
fn judge_trial(file: &[u8]) -> Result<(), Verdict>
    ensures { result ≡ ruled (trial_of file.now) tt }
{
    let head = layout::read_head(file)?;
    let d = layout::open(file, head)?;
    trial_laid(file, d)
}

// ---- the files

// Width and resolution, as the lines say: head, count, an entry a line, next offset, and two numbers, of which the resolution is the first.
const GOOD: [u8; 54] = *b"II*\0\x08\0\0\0\
    \x02\0\
    \x00\x01\x03\0\x01\0\0\0\x09\0\0\0\
    \x1A\x01\x05\0\x01\0\0\0\x26\0\0\0\
    \0\0\0\0\
    \x48\0\0\0\x01\0\0\0\
    \x48\0\0\0\x01\0\0\0";

// A big-endian one with a width alone.
const WIDTH_ALONE: [u8; 26] = *b"MM\0*\0\0\0\x08\
    \0\x01\
    \x01\x00\0\x04\0\0\0\x01\0\0\0\x09\
    \0\0\0\0";

// The line of a file: verdict and place.
fn print_verdict(rt: &impl Print, file: &[u8]) -> io::Result<()> {
    let v = judge_trial(file).err().unwrap_or(outcomes::ACCEPTED);
    println!(rt; "verdict {} place {}", v.number, v.place)
}

// That of the good file with another byte at a place.
fn print_changed(rt: &impl Print, place: usize, byte: u8) -> io::Result<()>
    requires { place < 54 }
{
    let mut file = GOOD;
    file[place] = byte;
    print_verdict(rt, &file)
}

fn main(rt: HostRuntime) -> io::Result<()> {
    print_verdict(&rt, &GOOD)?;
    // No resolution.
    print_verdict(&rt, &WIDTH_ALONE)?;
    // A width of type BYTE.
    print_changed(&rt, 12, 1)?;
    // A resolution of both numbers.
    print_changed(&rt, 26, 2)?;
    // Tag 26 behind tag 256.
    print_changed(&rt, 23, 0)?;
    // No entry.
    print_changed(&rt, 8, 0)
}
