// The mask's table of tags: rules 27 and 9 to 12 over what was found of each tag of the mask's directory, in the table's order: its entry, or one of zeros
// where it is absent. Of a broken rule only its number is told.
#![tactic(auto)]

ghost use Rattle.std.specs.Prelude.{◌≡◌, ◌≤◌, false, eqb, length};
ghost use Rattle.paper.specs.Tags.{mask_table};
ghost use Rattle.paper.specs.declared.Outcome.TheVariants.{Kept as kept};
ghost use Rattle.paper.specs.Layout.{rule6};
ghost use Rattle.lines.specs.Ready.{entries_at, Ready};
ghost use Rattle.tags.specs.Numbers.{Single, planar_in, planar_allowed};
ghost use Rattle.tags.specs.Tagging.{view_of, Fitting};
ghost use Rattle.mask.specs.Values.{Sized, sized_in, Plain, plain_in, Single258, single_in, cut_allowed, agrees};
ghost use Rattle.mask.specs.Masking.{tagged_of};

use layout::Directory;
use lines::Tabled;
use paper::Entry;
use table::SLOTS;
use tags::{Cut, Size, table as picture};

pub mod table;

// ---- rule 11

// Whether the mask has the size of its image.
#[tactic(auto, unfolding(crate::specs::Values::sized_in))]
fn is_sized(file: &[u8], big: bool, size: Size, found: &[Entry; SLOTS]) -> bool
    requires { Sized file.now found.now }
    ensures { result ≡ sized_in big file.now size.width size.length found.now }
{
    let w = tags::number_at(file, big, &found[picture::WIDTH]);
    let l = tags::number_at(file, big, &found[picture::LENGTH]);
    (w == size.width as usize) & (l == size.length as usize)
}

// Whether 284 is absent, or its number is 1.
#[tactic(auto, unfolding(paper::specs::Tests::some, paper::specs::Tests::allows))]
fn is_planar(file: &[u8], big: bool, planar: &Entry) -> bool
    requires { eqb planar.now.start 0 ≡ false → Single (length file.now) planar.now }
    ensures { result ≡ planar_allowed (planar_in big file.now planar.now) }
{
    planar.start == 0 || tags::number_at(file, big, planar) == 1
}

// Whether the tags with one number that are the same in every mask have theirs.
#[tactic(auto, unfolding(crate::specs::Values::plain_in))]
fn is_plain(file: &[u8], big: bool, found: &[Entry; SLOTS]) -> bool
    requires { Plain file.now found.now }
    ensures { result ≡ plain_in big file.now found.now }
{
    let compression = tags::short_at(file, big, found[picture::COMPRESSION].start);
    let photometric = tags::short_at(file, big, found[picture::PHOTOMETRIC].start);
    let samples = tags::short_at(file, big, found[picture::SAMPLES].start);
    let planar = is_planar(file, big, &found[picture::PLANAR]);
    let subfile = tags::number_at(file, big, &found[table::SUBFILE]);
    tags::is_coding(compression)
        & ((photometric == 4) & ((samples == 1) & (planar & (subfile == 4))))
}

// Whether every value of 258 is 1.
#[tactic(auto, unfolding(crate::specs::Values::single_in, crate::specs::Values::all_one))]
fn is_single(file: &[u8], big: bool, found: &[Entry; SLOTS]) -> bool
    requires { Single258 file.now found.now }
    ensures { result ≡ single_in big file.now found.now }
{
    let e = found[picture::BITS];
    let bits = tags::read_bits(layout::value(file, layout::part_of(e)), big, e.count);
    bits.same & (bits.first == 1)
}

// Whether a picture may be cut so. `tags` asks the same in the order of the tags, as it has to tell the lowest that is broken.
#[tactic(auto, unfolding(crate::specs::Values::cut_allowed))]
fn is_cut(cut: Cut) -> bool
    ensures { result ≡ cut_allowed cut }
{
    match cut {
        Cut::Strips { rows } => tags::is_between(rows, 1, lines::MORE),
        Cut::Tiles { width, length } => tags::is_sixteens(width) & tags::is_sixteens(length),
    }
}

// ---- rule 12

// Whether 258 has one value, as there is one sample, and offsets and byte counts one for each piece.
#[tactic(auto, unfolding(crate::specs::Values::agrees))]
fn is_agreeing(bits: usize, offsets: usize, bytecounts: usize, pieces: usize) -> bool
    ensures { result ≡ agrees bits offsets bytecounts pieces }
{
    (bits == 1) & ((offsets == pieces) & (bytecounts == pieces))
}

// ---- the judgement

// Rules 11 and 12, of a mask that keeps rules 27, 9 and 10. File, directory and what was found of it are lent apart, as in `tags`: `Ready`, `Fitting` and `view_of`
// speak of each. That the sizes are at most 1000000 is asked wherever it is needed: `tags::Size` is plain, as definitions tell one, so it keeps no fact.
fn judge_values(
    file: &[u8],
    d: Directory,
    tiled: bool,
    size: Size,
    found: &[Entry; SLOTS],
) -> Result<bool, u32>
    requires { Fitting (mask_table size.width size.length) file.now d.big d.at d.count tiled found.now × (size.width ≤ 1000000) × (size.length ≤ 1000000) }
    ensures { result ≡ tagged_of (view_of (mask_table size.width size.length) file.now d.big d.at d.count) }
{
    let sized = is_sized(file, d.big, size, found);
    let single = is_single(file, d.big, found);
    let plain = is_plain(file, d.big, found);
    let cut = tags::read_cut(file, d.big, tiled, found);
    let allowed = (sized & single) & (plain & is_cut(cut));
    if !allowed {
        return Err(11);
    }
    let pieces = tags::count_pieces(cut, size.width as usize, size.length as usize);
    let bits = found[picture::BITS].count;
    let offsets = found[tags::offsets_slot(tiled)].count;
    let bytecounts = found[tags::byte_counts_slot(tiled)].count;
    let agreeing = is_agreeing(bits, offsets, bytecounts, pieces);
    if !agreeing {
        return Err(12);
    }
    Ok(tiled)
}

// Rules 27 and 9 to 12 of a mask whose image has this size: whether it is in tiles, or the number of the first rule that is broken.
pub fn judge_tags(
    file: &[u8],
    d: Directory,
    size: Size,
    found: &[Entry; SLOTS],
) -> Result<bool, u32>
    requires { Ready (mask_table size.width size.length) file.now d.big d.at d.count found.now × (rule6 (entries_at file.now d.big d.at d.count) ≡ kept)
        × (size.width ≤ 1000000) × (size.length ≤ 1000000) }
    ensures { result ≡ tagged_of (view_of (mask_table size.width size.length) file.now d.big d.at d.count) }
{
    let tabled = Tabled {
        lines: &table::LINES,
        found,
    };
    // The place is dropped here, in sight: a `From<Verdict>` for u32 would drop it at every `?`.
    let tiled = tags::judge_families(tabled).map_err(|v| v.number)?;
    judge_values(file, d, tiled, size, found)
}
