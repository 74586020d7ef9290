// The layout of a file: its head, and of a directory its offset, its count and its entries, rules 1 to 7; where the tags of a table stand, and tag
// 50909 where it stands more than once; an entry's value. `scan` passes over the directory that every file has. It is compiled into its one caller with
// the caller's table, which a second caller would undo: a directory that few files have is judged by the plainer `judge` and `first`.
#![tactic(auto)]

ghost use Rattle.std.specs.Prelude.{◌≡◌, IfSome, not, ◌||◌, [], map, ℕ, ◌+◌, ◌*◌, ◌^◌, ◌≤◌, ◌<◌, ltb, length};
ghost use Rattle.outcomes.specs.Ruled.{ruled};
ghost use Rattle.paper.specs.Bytes.{run};
ghost use Rattle.paper.specs.Outcome.{ascending, verdict, or_else};
ghost use Rattle.paper.specs.Pieces.{part};
ghost use Rattle.paper.specs.Tags.{absent};
ghost use Rattle.paper.specs.Layout.{odd, dir_len, size_of, entry_of, entry_at, entries, behind, bad_value, rule7};
ghost use Rattle.layout.specs.Opening.{headed_of, opened_of, entries_of, scanned_at, follow_of, ordered_of, concluded_of};
ghost use Rattle.layout.specs.Finding.{slot_in, slot_tags, Celled, place_in, found_in};
ghost use Rattle.layout.specs.Columns.{firsts};
ghost use Rattle.layout.specs.Parts.{value_part};

use paper::{Entry, Outcome, Part, Verdict};

// What a head that keeps rules 1 to 3 says: whether the file is big-endian, and the directory's offset.
#[derive(Clone, Copy)]
pub struct Head {
    pub big: bool,
    pub at: u32,
}

// A directory of so many entries at a place of a file. It keeps no fact of its numbers: a definition that tells a directory would have to prove it.
#[derive(Clone, Copy)]
pub struct Directory {
    pub big: bool,
    pub at: usize,
    pub count: usize,
}

// Where the entries of tag 50909 stand behind the first of them: where the second starts in the file, and how many there are from it on. Both are 0
// where there is at most one. It is no Option: what goes through the further entries goes through none of them as well.
#[derive(Clone, Copy)]
pub struct Further {
    pub start: usize,
    pub many: usize,
}

const NO_FURTHER: Further = Further { start: 0, many: 0 };

// An entry of zeros, which stands for that of a tag with none, here as in the definitions (`Tags.absent`). Whether a tag is there is asked as `start != 0`, as the
// definitions ask it (`Rows.misfit`, `Slots.some_at`): a comparison, which a call would not make plainer.
pub const ABSENT: Entry = Entry {
    tag: 0,
    typ: 0,
    count: 0,
    start: 0,
    len: 0,
};

// The same, by a call that is compiled into none of its callers. Lists of entries begin with it: one that began with the constant would be cleared by a call of C's
// `memset`, and the library asks for no name from outside.
#[inline(never)]
pub fn absent() -> Entry
    ensures { result ≡ absent.entry }
{
    ABSENT
}

// A directory with its bytes: the count, the entries, the next offset.
#[derive(Clone, Copy)]
pub struct Entries<'a> {
    pub bytes: &'a [u8],
    pub directory: Directory,
    pub ghost room: { dir_len directory.count ≤ length bytes.now },
    pub ghost few: { directory.count ≤ 1024 },
    pub ghost low: { directory.at < 4294967296 },
}

// What rules 6 and 7 answer for a directory, its next offset, and where rule 6 is kept the further entries of 50909. The next offset and the further entries
// stand beside the `Result`: they are told on a refusal too. The next offset is 0 for none, as it stands in the file: rule 8 asks of that number.
#[derive(Clone, Copy)]
pub struct Scanned {
    pub judged: Result<(), Verdict>,
    pub next: u32,
    pub further: Further,
}

// What rule 6 says, and where it is kept the further entries of 50909. They stand beside it, as in `Scanned`: a `Result` would only be taken apart for that.
#[derive(Clone, Copy)]
struct Ordered {
    six: Outcome,
    further: Further,
}

// The tag of a metadata text, the one that may stand more than once.
const METADATA: usize = 50909;

// The size of an element of a type; 0 for a type other than 1 to 12. Types of one size joined by `|`, or a list of the sizes, cost an entry three to five
// instructions more.
#[tactic(auto, unfolding(paper::specs::Layout::size_of))]
pub fn size_of(typ: usize) -> usize
    ensures { (result ≡ size_of typ) × (result ≤ 8) }
{
    match typ {
        1 => 1,
        2 => 1,
        3 => 2,
        4 => 4,
        5 => 8,
        6 => 1,
        7 => 1,
        8 => 2,
        9 => 4,
        10 => 8,
        11 => 4,
        12 => 8,
        _ => 0,
    }
}

// The entry whose bytes start at p of the directory, which starts at `at` of the file. The bounds of its numbers stand in contracts, here and below: an entry is
// plain, as definitions tell one, and keeps no fact of its numbers.
pub fn entry_at(dir: &[u8], big: bool, at: usize, p: usize) -> Entry
    requires { (p + 12 ≤ length dir.now) × (at < 4294967296) × (p ≤ 12300) }
    ensures { (result ≡ entry_of big at dir.now p) × (result.tag < 65536) × (result.typ < 65536) × (result.count < 4294967296) × (result.start < 4294979604) × (result.len ≤ 34359738360) }
{
    let tag = order::short(dir, big, p);
    let typ = order::short(dir, big, p + 2);
    let count = order::long(dir, big, p + 4);
    let size = size_of(typ);
    let len = size * count;
    let start = if len <= 4 {
        at + (p + 8)
    } else {
        order::long(dir, big, p + 8)
    };
    Entry {
        tag,
        typ,
        count,
        start,
        len,
    }
}

// ---- parts of a file

// The bytes of a part.
pub fn value<'a>(file: &'a [u8], part: Part) -> &'a [u8]
    requires { part.start + part.len ≤ length file.now }
    ensures { result.now ≡ run file.now part.start part.len }
{
    let end = part.start + part.len;
    &file[part.start..end]
}

// Where the value of an entry stands.
pub fn part_of(e: Entry) -> Part
    ensures { result ≡ value_part e }
{
    Part {
        start: e.start,
        len: e.len,
    }
}

impl Directory {
    // The whole of it: the count, the entries, the next offset.
    pub fn part(self) -> Part
        requires { dir_len self.count < 2 ^ 64 }
        ensures { result ≡ part self.at (dir_len self.count) }
    {
        Part {
            start: self.at,
            len: 2 + 12 * self.count + 4,
        }
    }

    // Its bytes.
    pub fn bytes<'a>(self, file: &'a [u8]) -> &'a [u8]
        requires { self.at + dir_len self.count ≤ length file.now }
        ensures { result.now ≡ run file.now self.at (dir_len self.count) }
    {
        value(file, self.part())
    }

    // It, with its bytes.
    pub fn entries<'a>(self, file: &'a [u8]) -> Entries<'a>
        requires { (self.at + dir_len self.count ≤ length file.now) × (self.count ≤ 1024) × (self.at < 4294967296) }
        ensures directory { result.directory ≡ self }
        ensures bytes { result.bytes.now ≡ run file.now self.at (dir_len self.count) }
    {
        Entries {
            bytes: self.bytes(file),
            directory: self,
        }
    }
}

impl Further {
    // The bytes of the further entries.
    pub fn bytes<'a>(self, file: &'a [u8]) -> &'a [u8]
        requires { self.start + 12 * self.many ≤ length file.now }
        ensures { result.now ≡ run file.now self.start (12 * self.many) }
    {
        value(
            file,
            Part {
                start: self.start,
                len: 12 * self.many,
            },
        )
    }
}

// ---- the head, and the place of the directory

// Whether a run of the file starts odd, below 8 or ends past n.
fn is_misplaced(start: usize, len: usize, n: usize) -> bool
    requires { (start < 4294979604) × (len ≤ 34359738360) }
    ensures { result ≡ (odd start || (ltb start 8 || ltb n (start + len))) }
{
    if start % 2 == 1 {
        return true;
    }
    if start < 8 {
        return true;
    }
    n < start + len
}

// Rules 1 to 3.
#[tactic(auto, unfolding(crate::specs::Opening::headed_of, outcomes::specs::Ruled::ruled, paper::specs::Judge::head_stage, paper::specs::Judge::head_rules, paper::specs::Judge::head_run, paper::specs::Judge::head_in, paper::specs::Judge::head_of, paper::specs::Outcome::first, paper::specs::Layout::rule1, paper::specs::Layout::rule2, paper::specs::Layout::rule3, paper::specs::Layout::dir_at))]
pub fn read_head(file: &[u8]) -> Result<Head, Verdict>
    ensures { result ≡ headed_of file.now }
{
    let n = file.len();
    if (n < 8) | (4294967295 < n) {
        return outcomes::refused(1, 0);
    }
    let head = &file[..8];
    let big = match (head[0], head[1]) {
        (b'I', b'I') => false,
        (b'M', b'M') => true,
        _ => return outcomes::refused(2, 0),
    };
    if order::short(head, big, 2) != 42 {
        return outcomes::refused(3, 0);
    }
    Ok(Head {
        big,
        at: order::long(head, big, 4) as u32,
    })
}

// Rules 4 and 5, of the directory that a head names.
pub fn open(file: &[u8], head: Head) -> Result<Directory, Verdict>
    requires { length file.now ≤ 4294967295 }
    ensures { result ≡ opened_of file.now (record { size = length file.now; big = head.big; at = head.at }) }
{
    let n = file.len();
    let big = head.big;
    let at = head.at as usize;
    if is_misplaced(at, 2, n) {
        return outcomes::refused(4, 0);
    }
    let count = order::short(file, big, at);
    if (count == 0) | (1024 < count) | (n < at + (2 + 12 * count + 4)) {
        return outcomes::refused(5, 0);
    }
    Ok(Directory { big, at, count })
}

// ---- the cells of a table, which is no map: a map is made on the heap, and here is none

// How many cells a table has for its tags.
pub const CELLS: usize = 32;

// A cell of a table: a tag, and its slot in what a pass finds.
#[derive(Clone, Copy)]
pub struct Cell {
    pub tag: u16,
    pub slot: u8,
}

impl Cell {
    // What stands in a cell that has none of the table's tags: a tag of another cell, and no slot. Tag 0 has cell 0, so it may stand in all the others. It is no
    // Option: with one, each entry of a directory takes one test more.
    pub const NONE: Cell = Cell { tag: 0, slot: 255 };
}

// The cells of a table, each by the name of its tag's slot, and `_` for one that has none.
#[macro_export]
macro_rules! cells {
    (@cell $lines:ident _) => {
        $crate::Cell::NONE
    };
    (@cell $lines:ident $slot:ident) => {
        $crate::Cell {
            tag: $lines[$slot].tag as u16,
            slot: $slot as u8,
        }
    };
    ($lines:ident: $($slot:tt),* $(,)?) => {
        [$($crate::cells!(@cell $lines $slot)),*]
    };
}

// The slot of a tag, where it is in the table: it stands in its cell. A table has a factor for which no two of its tags share one.
#[tactic(auto, unfolding(crate::specs::Finding::slot_in, crate::specs::Finding::in_cell, crate::specs::Finding::cell_of))]
fn slot_of(cells: &[Cell; CELLS], factor: u16, tag: usize) -> Option<u8>
    requires { tag < 65536 }
    ensures { result ≡ slot_in factor cells.now tag }
{
    let cell = cells[tag * usize::from(factor) / 256 % CELLS];
    (usize::from(cell.tag) == tag).then_some(cell.slot)
}

// ---- rules 6 and 7

// Whether a tag may not stand in front of the next one.
#[tactic(auto, unfolding(paper::specs::Layout::behind))]
fn is_out_of_order(tag: usize, next: usize) -> bool
    ensures { result ≡ not (behind tag next) }
{
    if tag < next {
        return false;
    }
    if tag == METADATA {
        return next != METADATA;
    }
    true
}

// Rule 6 with one tag more in front of the next one.
fn follow(tag: usize, next: Option<usize>, later: Outcome) -> Outcome
    requires { IfSome next (λ n. n < 65536) }
    ensures { result ≡ follow_of tag next later }
{
    match next {
        Some(n) if is_out_of_order(tag, n) => Outcome::Broken(n as u32),
        _ => later,
    }
}

// Rule 7 at one entry.
fn bad_value(e: Entry, n: usize) -> bool
    requires { (e.len ≡ size_of e.typ * e.count) × (e.start < 4294979604) × (e.len ≤ 34359738360) }
    ensures { result ≡ bad_value n e }
{
    if 4 < e.len {
        return is_misplaced(e.start, e.len, n);
    }
    if 0 < e.len {
        return false;
    }
    0 < size_of(e.typ)
}

// What rules 6 and 7 answer.
fn judged(six: Outcome, seven: Outcome) -> Result<(), Verdict>
    ensures { result ≡ ruled (or_else 6 six (or_else 7 seven (verdict 0 0))) tt }
{
    outcomes::rule(6, six)?;
    outcomes::rule(7, seven)
}

impl<'a> Entries<'a> {
    // Entry i, counted from 0.
    fn at(self, i: usize) -> Entry
        requires { i < self.directory.count }
        ensures entry { result ≡ entry_at self.entry.directory.big self.entry.directory.at self.entry.bytes.now i }
        ensures low { (result.tag < 65536) × (result.start < 4294979604) × (result.len ≤ 34359738360) }
    {
        let d = self.directory;
        entry_at(self.bytes, d.big, d.at, 2 + 12 * i)
    }

    // Rule 6 and the further entries of 50909, in one pass from the last entry to the first. A directory that `scan` passed over comes here only where a 50909
    // is not above the tag before it. It is inlined in its two callers: as a call, a file with a mask takes some hundred instructions more.
    #[inline(always)]
    fn order_again(self) -> Ordered
        ensures { result ≡ ordered_of (entries_of self.entry.directory self.entry.bytes.now) self.entry.directory.at }
    {
        let d = self.directory;
        let mut six = Outcome::Kept;
        let mut next = None;
        let mut first = 0;
        let mut many = 0;
        for i in (0..d.count).rev() {
            let tag = order::short(self.bytes, d.big, 2 + 12 * i);
            six = follow(tag, next, six);
            next = Some(tag);
            if tag == METADATA {
                first = i;
                many += 1;
            }
        }
        if let Outcome::Kept = six {
            if 1 < many {
                let further = Further {
                    start: d.at + (2 + 12 * (first + 1)),
                    many: many - 1,
                };
                return Ordered { six, further };
            }
        }
        Ordered {
            six,
            further: NO_FURTHER,
        }
    }

    // Rule 6, where it is known of the tags whether they ascend: only a first fault at 50909 need be none.
    fn judge_order(self, six: Outcome) -> Ordered
        requires { six ≡ ascending (map (λ e. e.tag) (entries_of self.directory self.bytes.now)) }
        ensures { result ≡ ordered_of (entries_of self.entry.directory self.entry.bytes.now) self.entry.directory.at }
    {
        if let Outcome::Broken(place) = six {
            if place as usize == METADATA {
                return self.order_again();
            }
        }
        Ordered {
            six,
            further: NO_FURTHER,
        }
    }

    // What is answered where rules 6 and 7 are judged.
    #[tactic(auto, unfolding(crate::specs::Opening::concluded_of, paper::specs::Layout::next_offset))]
    fn conclude(self, o: Ordered, seven: Outcome) -> Scanned
        ensures { result ≡ concluded_of self.entry.directory.big self.entry.directory.count self.entry.bytes.now o seven }
    {
        let d = self.directory;
        Scanned {
            judged: judged(o.six, seven),
            next: order::long(self.bytes, d.big, 2 + 12 * d.count) as u32,
            further: o.further,
        }
    }

    // Rules 6 and 7, the next offset, and the first entry of each tag of a table, in one pass from the last entry to the first: at each turn all is known of
    // the entries from i on. What is found has an entry for each slot, and is lent as that of no entry. The cells and the factor come apart: in a struct the
    // cells would be built on the stack for each file, which takes 70 instructions.
    pub fn scan(self, cells: &[Cell; CELLS], factor: u16, n: usize, found: &mut [Entry]) -> Scanned
        requires { Celled factor cells.now (slot_tags cells.now (length found.old)) × (found.old ≡ firsts (slot_tags cells.now (length found.old)) []) }
        ensures scanned { result ≡ scanned_at n self.entry.directory self.entry.bytes.now }
        ensures columns { found.new ≡ firsts (slot_tags cells.now (length found.old)) (entries_of self.entry.directory self.entry.bytes.now) }
    {
        // What is known of a rule is a number here: with an `Outcome` an entry takes four instructions more, with a flag two. So `next` is one too: it is the place
        // where rule 6 would be broken.
        let mut six = outcomes::NONE;
        let mut seven = outcomes::NONE;
        let mut next = outcomes::NONE;
        for i in (0..self.directory.count).rev() {
            let e = self.at(i);
            // Whether the tags ascend: a tag is below the next one.
            six = outcomes::broken_or(next <= e.tag, next, six);
            next = e.tag;
            // Rule 7: the count is not 0, and the value lies in the file.
            seven = outcomes::broken_or(bad_value(e, n), e.tag, seven);
            if let Some(k) = slot_of(cells, factor, e.tag) {
                found[usize::from(k)] = e;
            }
        }
        let o = self.judge_order(outcomes::told(six));
        self.conclude(o, outcomes::told(seven))
    }
}

// ---- a directory that few files have: it needs no cells for its table

// Where the first entry of a tag stands among so many. Of the entries their tags alone are read. It is no method of `Entries`, which has the directory's place:
// that is not asked here.
pub fn find(dir: &[u8], big: bool, count: usize, tag: usize) -> Option<usize>
    requires { (dir_len count ≤ length dir.now) × (count ≤ 1024) }
    ensures place { (at : ℕ) → result ≡ place_in tag (entries big at count dir.now) }
    ensures low { IfSome result (λ i. i < count) }
{
    for i in 0..count {
        if order::short(dir, big, 2 + 12 * i) == tag {
            return Some(i);
        }
    }
    None
}

impl<'a> Entries<'a> {
    // The first entry of a tag.
    pub fn first(self, tag: usize) -> Option<Entry>
        ensures { result ≡ found_in tag (entries_of self.entry.directory self.entry.bytes.now) }
    {
        let d = self.directory;
        let i = find(self.bytes, d.big, d.count, tag)?;
        Some(self.at(i))
    }

    // Rule 7, broken at the first tag whose value is bad.
    fn judge_values(self, n: usize) -> Outcome
        ensures { result ≡ rule7 n (entries_of self.entry.directory self.entry.bytes.now) }
    {
        for i in 0..self.directory.count {
            let e = self.at(i);
            if bad_value(e, n) {
                return Outcome::Broken(e.tag as u32);
            }
        }
        Outcome::Kept
    }

    // Rules 6 and 7, the next offset and the further entries of 50909, as `scan` answers them, a pass for each rule.
    pub fn judge(self, n: usize) -> Scanned
        ensures { result ≡ scanned_at n self.entry.directory self.entry.bytes.now }
    {
        self.conclude(self.order_again(), self.judge_values(n))
    }
}
