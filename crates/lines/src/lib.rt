// The lines of a table of tags, of any table, as document 01 prints its table. Rules 9 and 10 go through the lines with what a pass over a directory found of
// their tags: the first entry of each, and one of zeros for a tag that is absent.
#![tactic(auto)]

ghost use Rattle.std.specs.Prelude.{◌≡◌, ◌*◌, ◌≤◌, length};
ghost use Rattle.layout.specs.Opening.{entries_of};
ghost use Rattle.layout.specs.Columns.{firsts};
ghost use Rattle.lines.specs.Rows.{Answers, first_broken, needed_by, nine_of, unlike, misfit, ten_of, some_misfit};
ghost use Rattle.lines.specs.Lined.{row_tags};

use layout::Entries;
use paper::{Entry, Outcome};

// When a tag is needed: never, in a picture of strips, in one of tiles, always.
#[derive(Clone, Copy)]
pub enum Needed {
    Never,
    Strips,
    Tiles,
    Always,
}

// A line of a table: the tag, when it is needed, the one or two types that it may have, and the least and the most of its count. A line with one type names it
// twice, so that one test serves both.
#[derive(Clone, Copy)]
pub struct Line {
    pub tag: u32,
    pub needed: Needed,
    pub typ: usize,
    pub other: usize,
    pub least: usize,
    pub most: usize,
}

// A table, a line a tag.
#[macro_export]
macro_rules! table {
    ($([$tag:expr, $needed:ident, $typ:expr, $other:expr, $least:expr, $most:expr]),* $(,)?) => {
        [$($crate::Line {
            tag: $tag,
            needed: $crate::Needed::$needed,
            typ: $typ,
            other: $other,
            least: $least,
            most: $most,
        }),*]
    };
}

// The types that a line may name, and the most of a count that has no other: no count of 4 bytes is more. A type is a number, and no enum: an entry may have
// any number as its type, with which a line's types are compared, so that an enum would be turned back into its number at each comparison.
pub const BYTE: usize = 1;

pub const ASCII: usize = 2;

pub const SHORT: usize = 3;

pub const LONG: usize = 4;

pub const DOUBLE: usize = 12;

pub const MORE: usize = 4294967295;

// What a pass over a directory finds of the tags of a table, but tag by tag, so that the table needs no cells. Whatever stood there is written over.
pub fn gather(lines: &[Line], entries: Entries, found: &mut [Entry])
    requires { length found.old ≡ length lines.now }
    ensures { found.new ≡ firsts (row_tags lines.now) (entries_of entries.entry.directory entries.entry.bytes.now) }
{
    let none = layout::absent();
    // By index: of entries that are written through a zip with `iter_mut` nothing is known behind the loop.
    for (k, line) in lines.iter().enumerate() {
        found[k] = entries.first(line.tag as usize).unwrap_or(none);
    }
}

// ---- one line

impl Needed {
    // Rule 9: whether a tag is needed in a picture of tiles, or of strips.
    #[tactic(auto, unfolding(crate::specs::Rows::needed_by))]
    fn is_needed(self, tiled: bool) -> bool
        ensures { result ≡ needed_by self tiled }
    {
        match self {
            Needed::Never => false,
            Needed::Strips => !tiled,
            Needed::Tiles => tiled,
            Needed::Always => true,
        }
    }
}

impl Line {
    // Rule 10: whether a type and a count are other ones than the line says.
    #[tactic(auto, unfolding(crate::specs::Rows::unlike))]
    fn is_unlike(self, typ: usize, count: usize) -> bool
        ensures { result ≡ unlike self typ count }
    {
        !(((typ == self.typ) | (typ == self.other)) & (self.least..=self.most).contains(&count))
    }

    // The same of an entry, of a tag that may be absent, which is asked first.
    #[tactic(auto, unfolding(crate::specs::Rows::misfit))]
    fn is_misfit(self, entry: Entry) -> bool
        ensures { result ≡ misfit self entry }
    {
        entry.start != 0 && self.is_unlike(entry.typ, entry.count)
    }
}

// Whether one of so many entries that stand side by side is not as a line says.
pub fn has_misfit(line: Line, entries: &[u8], big: bool, many: usize) -> bool
    requires { (12 * many ≤ length entries.now) × (many ≤ 1024) }
    ensures { result ≡ some_misfit line big entries.now 0 many }
{
    for j in 0..many {
        let typ = order::short(entries, big, 12 * j + 2);
        let count = order::long(entries, big, 12 * j + 4);
        if line.is_unlike(typ, count) {
            return true;
        }
    }
    false
}

// ---- all lines

// So many lines are gone through in one loop, and the others in a second one: a loop over some more is not unrolled, and reads the table as data.
const UNROLLED: usize = 12;

// Lines, each with what was found of its tag.
#[derive(Clone, Copy)]
pub struct Tabled<'a> {
    pub lines: &'a [Line],
    pub found: &'a [Entry],
    pub ghost room: { length lines.now ≤ length found.now },
}

impl<'a> Tabled<'a> {
    // The tag of the first line that its entry breaks, in one loop.
    fn broken_line<F: Fn(Line, Entry) -> bool>(self, breaks: &F) -> Outcome
        requires calls { F.IsAlwaysCallable breaks.now }
        ensures { (test : _) → Answers (F.post breaks.now) test → result ≡ first_broken test self.entry.lines.now self.entry.found.now }
    {
        for (line, entry) in self.lines.iter().zip(self.found) {
            if breaks(*line, *entry) {
                return Outcome::Broken(line.tag);
            }
        }
        Outcome::Kept
    }

    // The tag of the first line that its entry breaks.
    #[inline(always)]
    fn first_broken<F: Fn(Line, Entry) -> bool>(self, breaks: F) -> Outcome
        requires calls { F.IsAlwaysCallable breaks }
        ensures { (test : _) → Answers (F.post breaks) test → result ≡ first_broken test self.entry.lines.now self.entry.found.now }
    {
        let k = self.lines.len().min(UNROLLED);
        let front = Tabled {
            lines: &self.lines[..k],
            found: self.found,
        };
        match front.broken_line(&breaks) {
            Outcome::Kept => {
                let back = Tabled {
                    lines: &self.lines[k..],
                    found: &self.found[k..],
                };
                back.broken_line(&breaks)
            }
            broken => broken,
        }
    }

    // Rule 9: the lowest needed tag that is absent.
    #[inline(always)]
    pub fn needed_tags(self, tiled: bool) -> Outcome
        ensures { result ≡ nine_of self.entry.lines.now tiled self.entry.found.now }
    {
        self.first_broken(|line, entry| line.needed.is_needed(tiled) & (entry.start == 0))
    }

    // Rule 10 of the first entry of each tag: the lowest tag that is present with another type or count.
    #[inline(always)]
    pub fn fitting_tags(self) -> Outcome
        ensures { result ≡ ten_of self.entry.lines.now self.entry.found.now }
    {
        self.first_broken(|line, entry| line.is_misfit(entry))
    }
}
