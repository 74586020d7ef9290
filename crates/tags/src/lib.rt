// The image's table of tags: rules 27 and 9 to 12 over what one pass over the directory found of each tag, in the table's order: its first entry. An absent
// tag has an entry of zeros.
#![tactic(auto)]

ghost use Rattle.std.specs.Prelude.{◌≡◌, not, ◌&&◌, ◌||◌, ◌+◌, ◌*◌, ◌≤◌, ◌<◌, [], ◌∷◌, length};
ghost use Rattle.paper.specs.Tests.{between, allows};
ghost use Rattle.paper.specs.Tags.{table, sixteens, rounded_up};
ghost use Rattle.lines.specs.Ready.{Ready, Behind};
ghost use Rattle.tags.specs.Index.{pictured};
ghost use Rattle.tags.specs.Slots.{some_at, strip_slots, tile_slots, slot_of_offsets, slot_of_byte_counts};
ghost use Rattle.tags.specs.Numbers.{depths, codings, bits_in, short_in, number_in, Single, Readable, CutReadable, cut_in, numbers_in, planar_allowed, eleven_of, Positive, Countable, pieces_by, twelve_in};
ghost use Rattle.tags.specs.Tagging.{families_of, view_of, tagged_of, Fitting};

use layout::{Directory, Further};
use lines::Tabled;
use paper::{Entry, Outcome, Verdict};
use table::SLOTS;

pub mod table;

// How a picture is cut: by the rows of a strip, or by the sides of a tile.
#[derive(Clone, Copy)]
pub enum Cut {
    Strips { rows: usize },
    Tiles { width: usize, length: usize },
}

// The tags with one number each, and that number; 284 may be absent.
#[derive(Clone, Copy)]
pub struct Numbers {
    pub width: usize,
    pub length: usize,
    pub compression: usize,
    pub photometric: usize,
    pub samples: usize,
    pub planar: Option<usize>,
    pub cut: Cut,
}

// What the values of 258 say: the first, whether all are allowed, whether all are the first.
#[derive(Clone, Copy)]
pub struct Bits {
    pub first: usize,
    pub allowed: bool,
    pub same: bool,
}

// The width and the length of a picture.
#[derive(Clone, Copy)]
pub struct Size {
    pub width: u32,
    pub length: u32,
}

// What rules 27 and 9 to 12 find: the picture's size and whether it is in tiles.
#[derive(Clone, Copy)]
pub struct Pictured {
    pub size: Size,
    pub tiled: bool,
}

// ---- strips or tiles: the tags of each are spelled out, since a function of a list of slots would have to ask that each slot is among those found. What was
// found is of either table, of which a picture's tags are the first lines: a slice, and that it has as many is asked.

// Whether a tag of strips is present.
#[tactic(auto, unfolding(crate::specs::Slots::some_at, paper::specs::Tests::some))]
pub fn has_strips(found: &[Entry]) -> bool
    requires { pictured ≤ length found.now }
    ensures { result ≡ some_at strip_slots found.now }
{
    found[table::STRIP_OFFSETS].start != 0
        || found[table::ROWS_PER_STRIP].start != 0
        || found[table::STRIP_BYTE_COUNTS].start != 0
}

// Whether a tag of tiles is present.
#[tactic(auto, unfolding(crate::specs::Slots::some_at, paper::specs::Tests::some))]
pub fn has_tiles(found: &[Entry]) -> bool
    requires { pictured ≤ length found.now }
    ensures { result ≡ some_at tile_slots found.now }
{
    found[table::TILE_WIDTH].start != 0
        || found[table::TILE_LENGTH].start != 0
        || found[table::TILE_OFFSETS].start != 0
        || found[table::TILE_BYTE_COUNTS].start != 0
}

// Rule 27: both families, or neither.
pub fn is_mixed(strips: bool, tiles: bool) -> bool
    ensures { result ≡ (strips && tiles) || (not strips && not tiles) }
{
    strips == tiles
}

// The index in the table of the tag with the offsets of the pieces. Two functions, since one for both would be lent the two slots that it chooses from.
#[tactic(auto, unfolding(crate::specs::Slots::slot_of_offsets))]
pub fn offsets_slot(tiled: bool) -> usize
    ensures { (result ≡ slot_of_offsets tiled) × (result < pictured) }
{
    if tiled {
        table::TILE_OFFSETS
    } else {
        table::STRIP_OFFSETS
    }
}

// And of the one with their byte counts.
#[tactic(auto, unfolding(crate::specs::Slots::slot_of_byte_counts))]
pub fn byte_counts_slot(tiled: bool) -> usize
    ensures { (result ≡ slot_of_byte_counts tiled) × (result < pictured) }
{
    if tiled {
        table::TILE_BYTE_COUNTS
    } else {
        table::STRIP_BYTE_COUNTS
    }
}

// ---- the values

// The only value of a tag of type SHORT.
#[tactic(auto, unfolding(crate::specs::Numbers::short_in))]
pub fn short_at(file: &[u8], big: bool, start: usize) -> usize
    requires { start + 2 ≤ length file.now }
    ensures { (result ≡ short_in big file.now start) × (result < 65536) }
{
    order::short(&file[start..start + 2], big, 0)
}

// The only value of a tag of type SHORT or LONG.
#[tactic(auto, unfolding(crate::specs::Numbers::number_in, crate::specs::Numbers::short_in, paper::specs::Layout::size_of))]
pub fn number_at(file: &[u8], big: bool, e: &Entry) -> usize
    requires { Single (length file.now) e.now }
    ensures { (result ≡ number_in big file.now e.now) × (result < 4294967296) }
{
    if e.typ == lines::LONG {
        return order::long(&file[e.start..e.start + 4], big, 0);
    }
    short_at(file, big, e.start)
}

// How the picture is cut, each number fetched once. It is put into each of its callers, the mask's among them, so that no image bears a call for it.
#[inline(always)]
#[tactic(auto, unfolding(crate::specs::Numbers::cut_in))]
pub fn read_cut(file: &[u8], big: bool, tiled: bool, found: &[Entry]) -> Cut
    requires { CutReadable (length file.now) tiled found.now × (pictured ≤ length found.now) }
    ensures { result ≡ cut_in big file.now tiled found.now }
{
    if tiled {
        Cut::Tiles {
            width: number_at(file, big, &found[table::TILE_WIDTH]),
            length: number_at(file, big, &found[table::TILE_LENGTH]),
        }
    } else {
        Cut::Strips {
            rows: number_at(file, big, &found[table::ROWS_PER_STRIP]),
        }
    }
}

// Each value of a tag with one number, fetched once.
#[tactic(auto, unfolding(crate::specs::Numbers::numbers_in))]
fn read_numbers(file: &[u8], big: bool, tiled: bool, found: &[Entry; SLOTS]) -> Numbers
    requires { Readable (length file.now) tiled found.now }
    ensures { (result ≡ numbers_in big file.now tiled found.now) × (result.width < 4294967296) × (result.length < 4294967296) }
{
    Numbers {
        width: number_at(file, big, &found[table::WIDTH]),
        length: number_at(file, big, &found[table::LENGTH]),
        compression: short_at(file, big, found[table::COMPRESSION].start),
        photometric: short_at(file, big, found[table::PHOTOMETRIC].start),
        samples: short_at(file, big, found[table::SAMPLES].start),
        planar: if found[table::PLANAR].start != 0 {
            Some(number_at(file, big, &found[table::PLANAR]))
        } else {
            None
        },
        cut: read_cut(file, big, tiled, found),
    }
}

// Whether a value of 258 is allowed.
#[tactic(auto, unfolding(paper::specs::Tests::some, paper::specs::Tests::allows))]
fn is_depth(v: usize) -> bool
    ensures { result ≡ allows depths v }
{
    matches!(v, 1 | 8 | 16 | 32)
}

// What the k values of 258 say, each fetched once. `k` stands beside the part, which is asked for room alone: that it has just so many values is said by rule 10.
pub fn read_bits(part: &[u8], big: bool, k: usize) -> Bits
    requires { (0 < k) × (2 * k ≤ length part.now) }
    ensures { result ≡ bits_in big k part.now }
{
    let first = order::short(part, big, 0);
    let mut allowed = is_depth(first);
    let mut same = true;
    for i in 1..k {
        let v = order::short(part, big, 2 * i);
        allowed &= is_depth(v);
        same &= first == v;
    }
    Bits {
        first,
        allowed,
        same,
    }
}

// ---- rules 11 and 12

// A rule is broken at the tag of a line.
macro_rules! broken {
    ($slot:ident) => {
        Outcome::Broken(table::LINES[table::$slot].tag)
    };
}

// Whether a value lies in a range.
#[tactic(auto, unfolding(paper::specs::Tests::some, paper::specs::Tests::allows))]
pub fn is_between(v: usize, low: usize, high: usize) -> bool
    ensures { result ≡ allows (between low high ∷ []) v }
{
    (low..=high).contains(&v)
}

// Whether a compression is allowed.
#[tactic(auto, unfolding(paper::specs::Tests::some, paper::specs::Tests::allows))]
pub fn is_coding(v: usize) -> bool
    ensures { result ≡ allows codings v }
{
    matches!(v, 1 | 2 | 32773)
}

// Whether a value is a positive multiple of 16.
#[tactic(auto, unfolding(paper::specs::Tags::sixteens))]
pub fn is_sixteens(v: usize) -> bool
    ensures { result ≡ sixteens v }
{
    v > 0 && v % 16 == 0
}

// Whether 284 is absent, or its value is allowed.
#[tactic(auto, unfolding(paper::specs::Tests::some, paper::specs::Tests::allows))]
fn is_planar(planar: Option<usize>) -> bool
    ensures { result ≡ planar_allowed planar }
{
    matches!(planar, None | Some(1))
}

// Rule 11: the lowest tag with a value that is not allowed. `bitsallowed` says whether those of 258 are.
#[tactic(auto, unfolding(crate::specs::Numbers::eleven_of, crate::specs::Numbers::eleven_by))]
fn allowed_values(n: Numbers, bitsallowed: bool) -> Outcome
    ensures { result ≡ eleven_of n bitsallowed }
{
    if !is_between(n.width, 1, 1000000) {
        return broken!(WIDTH);
    }
    if !is_between(n.length, 1, 1000000) {
        return broken!(LENGTH);
    }
    if !bitsallowed {
        return broken!(BITS);
    }
    if !is_coding(n.compression) {
        return broken!(COMPRESSION);
    }
    if !is_between(n.photometric, 0, 3) {
        return broken!(PHOTOMETRIC);
    }
    if !is_between(n.samples, 1, 8) {
        return broken!(SAMPLES);
    }
    match n.cut {
        Cut::Strips { rows } if !is_between(rows, 1, lines::MORE) => broken!(ROWS_PER_STRIP),
        _ if !is_planar(n.planar) => broken!(PLANAR),
        Cut::Tiles { width, .. } if !is_sixteens(width) => broken!(TILE_WIDTH),
        Cut::Tiles { length, .. } if !is_sixteens(length) => broken!(TILE_LENGTH),
        _ => Outcome::Kept,
    }
}

// a / b, rounded up.
#[tactic(auto, unfolding(paper::specs::Tags::rounded_up))]
pub fn rounded_up(a: usize, b: usize) -> usize
    requires { (a ≤ 1000000) × (0 < b) }
    ensures { (result ≡ rounded_up a b) × (result ≤ a) }
{
    a.div_ceil(b)
}

// How many strips or tiles a picture so wide and so long has. It is put into each of its callers, as `read_cut` is.
#[inline(always)]
#[tactic(auto, unfolding(crate::specs::Numbers::pieces_by))]
pub fn count_pieces(cut: Cut, wide: usize, long: usize) -> usize
    requires { Positive cut × (wide ≤ 1000000) × (long ≤ 1000000) }
    ensures { result ≡ pieces_by cut wide long }
{
    match cut {
        Cut::Strips { rows } => rounded_up(long, rows),
        Cut::Tiles { width, length } => rounded_up(wide, width) * rounded_up(long, length),
    }
}

// Rule 12, with the counts of 258, of the offsets and of the byte counts. Each arm names its own tags: by a slot that is chosen first the table would be
// looked into with a number that is no constant, and its lines are to stay constants (outside/tests/folded.rs).
#[tactic(auto, unfolding(crate::specs::Numbers::twelve_of, crate::specs::Slots::slot_of_offsets, crate::specs::Slots::slot_of_byte_counts, paper::specs::Outcome::first_of))]
fn agreeing_tags(n: Numbers, bits: Bits, found: &[Entry; SLOTS]) -> Outcome
    requires { Countable n }
    ensures { result ≡ twelve_in n bits found.now }
{
    if found[table::BITS].count != n.samples || !bits.same {
        return broken!(BITS);
    }
    let coded = matches!(n.compression, 2 | 32773);
    if coded && (bits.first != 1 || n.samples != 1) {
        return broken!(COMPRESSION);
    }
    let pieces = count_pieces(n.cut, n.width, n.length);
    match n.cut {
        Cut::Strips { .. } => {
            if found[table::STRIP_OFFSETS].count != pieces {
                return broken!(STRIP_OFFSETS);
            }
            if found[table::STRIP_BYTE_COUNTS].count != pieces {
                return broken!(STRIP_BYTE_COUNTS);
            }
        }
        Cut::Tiles { .. } => {
            if found[table::TILE_OFFSETS].count != pieces {
                return broken!(TILE_OFFSETS);
            }
            if found[table::TILE_BYTE_COUNTS].count != pieces {
                return broken!(TILE_BYTE_COUNTS);
            }
        }
    }
    Outcome::Kept
}

// ---- the judgement

// Rules 11 and 12, of a file that keeps rules 27, 9 and 10. File, directory and what was found of it are lent apart, here and in `judge_tags`: every clause
// speaks of the three apart, by `Ready`, `Fitting` and `view_of`.
fn judge_values(
    file: &[u8],
    d: Directory,
    tiled: bool,
    found: &[Entry; SLOTS],
) -> Result<Pictured, Verdict>
    requires { Fitting table file.now d.big d.at d.count tiled found.now }
    ensures { result ≡ tagged_of (view_of table file.now d.big d.at d.count) }
{
    let n = read_numbers(file, d.big, tiled, found);
    let e = found[table::BITS];
    let bits = read_bits(layout::value(file, layout::part_of(e)), d.big, e.count);
    outcomes::rule(11, allowed_values(n, bits.allowed))?;
    outcomes::rule(12, agreeing_tags(n, bits, found))?;
    let size = Size {
        width: n.width as u32,
        length: n.length as u32,
    };
    Ok(Pictured { size, tiled })
}

// Rules 27, 9 and 10 of the first entry of each tag, by the lines of any table of a picture: whether it is in tiles, or the verdict of the first rule that is
// broken. It is put into each of its callers with the table that is lent there, so that its lines are no data.
#[inline(always)]
#[tactic(auto, unfolding(crate::specs::Tagging::families_of))]
pub fn judge_families(tabled: Tabled<'_>) -> Result<bool, Verdict>
    requires { pictured ≤ length tabled.found.now }
    ensures { result ≡ families_of tabled.entry.lines.now tabled.entry.found.now }
{
    let tiled = has_tiles(tabled.found);
    if is_mixed(has_strips(tabled.found), tiled) {
        return outcomes::refused(27, 0);
    }
    outcomes::rule(9, tabled.needed_tags(tiled))?;
    outcomes::rule(10, tabled.fitting_tags())?;
    Ok(tiled)
}

// Rules 27 and 9 to 12. Of each tag there is its first entry; 50909 may have further ones.
pub fn judge_tags(
    file: &[u8],
    d: Directory,
    found: &[Entry; SLOTS],
    further: Further,
) -> Result<Pictured, Verdict>
    requires { Ready table file.now d.big d.at d.count found.now × Behind file.now d.big d.at d.count further }
    ensures { result ≡ tagged_of (view_of table file.now d.big d.at d.count) }
{
    let tiled = judge_families(Tabled {
        lines: &table::LINES,
        found,
    })?;
    let line = table::LINES[table::METADATA];
    if lines::has_misfit(line, further.bytes(file), d.big, further.many) {
        return outcomes::refused(10, line.tag);
    }
    judge_values(file, d, tiled, found)
}
