// The key rows of a file: rule 23, one row by value, and the writer of the rows that a caller lends.
#![tactic(auto)]

ghost use Rattle.std.specs.Prelude.{◌≡◌, ◌≤◌, length};
ghost use Rattle.paper.specs.Judge.{view};
ghost use Rattle.paper.specs.Calls.{row_at, rows_of, left_rows};
ghost use Rattle.rows.specs.Planning.{planned_of, Asks, Fits, written, lent_of};

use keys::Starts;
use paper::{Counted, Part, Row, Verdict};

// All that a row is made of: the byte order, how long the key directory is, and where it, the doubles and the characters start.
#[derive(Clone, Copy)]
pub struct Plan {
    pub big: bool,
    pub len: usize,
    pub starts: Starts,
}

// Verdict and K for so many lent rows, with the plan of the rows.
#[derive(Clone, Copy)]
pub struct Planned {
    pub counted: Counted,
    pub plan: Plan,
}

// Verdict, K and 256 rows, which are as they were lent where the verdict refuses: so this is no Result.
#[derive(Clone, Copy)]
pub struct Lent {
    pub counted: Counted,
    pub rows: [Row; 256],
}

// Rules 1 to 23 of a file with so many rows lent. K is 0 where a rule is broken; where it is rule 23 the plan is told too, so this is no Result.
pub fn count(file: &[u8], lent: usize) -> Planned
    ensures { result ≡ planned_of file.now lent }
{
    let e = match judge::examine(file) {
        Ok(e) => e,
        Err(verdict) => {
            return Planned {
                counted: Counted { verdict, keys: 0 },
                plan: Plan {
                    big: false,
                    len: 0,
                    starts: Starts {
                        directory: 0,
                        doubles: 0,
                        characters: 0,
                    },
                },
            };
        }
    };
    let directory = e.image.directory;
    let plan = Plan {
        big: e.image.big,
        len: directory.len,
        starts: Starts {
            directory: directory.start,
            doubles: e.image.doubles.start,
            characters: e.image.characters.start,
        },
    };
    let k = e.surveyed.keys;
    if lent < k as usize {
        return Planned {
            counted: Counted {
                verdict: Verdict {
                    number: 23,
                    place: k,
                },
                keys: 0,
            },
            plan,
        };
    }
    let verdict = outcomes::ACCEPTED;
    Planned {
        counted: Counted { verdict, keys: k },
        plan,
    }
}

// The row of key entry i, counted from 0, of an accepted file.
fn row_of(file: &[u8], plan: Plan, i: usize) -> Row
    requires { Asks file.now plan i }
    ensures { result ≡ row_at (view file.now) i }
{
    let part = Part {
        start: plan.starts.directory,
        len: plan.len,
    };
    keys::row(plan.big, layout::value(file, part), plan.starts, i)
}

// The first k rows are written, the others stay as they are.
fn fill(rows: &mut [Row], file: &[u8], plan: Plan, k: usize)
    requires { (k ≤ length rows.old) × Fits file.now plan k }
    ensures { rows.new ≡ written file.now k rows.old }
{
    for (i, row) in rows[..k].iter_mut().enumerate() {
        *row = row_of(file, plan, i);
    }
}

// The key rows of a file, written to the rows that are lent: verdict and K. Nothing is written on a refusal.
pub fn key_rows(file: &[u8], rows: &mut [Row]) -> Counted
    ensures { (result ≡ rows_of file.now (length rows.old))
        × (rows.new ≡ left_rows file.now rows.old) }
{
    let p = count(file, rows.len());
    let k = p.counted.keys as usize;
    fill(rows, file, p.plan, k);
    p.counted
}

// The same with 256 rows of this function's own, which no file needs more of.
pub fn lend(file: &[u8]) -> Lent
    ensures { result ≡ lent_of file.now }
{
    let mut rows = [Row {
        key: 0,
        kind: 0,
        first: 0,
        len: 0,
        entry: 0,
    }; 256];
    let counted = key_rows(file, &mut rows);
    Lent { counted, rows }
}
