// The key block: the keys of an accepted file with their values, written into lent bytes, little-endian and without gaps or sharing; and three
// such runs read back without a file.
#![tactic(auto)]

ghost use Rattle.std.specs.Prelude.{◌≡◌, not, ◌&&◌, ◌+◌, ◌*◌, ◌^◌, ◌<◌, ◌≤◌, IfOk, ltb, eqb, length, drop};
ghost use Rattle.paper.specs.Bytes.{num, enc, elems};
ghost use Rattle.paper.specs.Calls.{reading_back};
ghost use Rattle.paper.specs.Block.{encs, values_at, count_if_at, new_index, block_in, block_over, block_of, block_left};
ghost use Rattle.paper.specs.Keys.{minor_revision, key_count};
ghost use Rattle.keys.specs.Pass.{runs};
ghost use Rattle.block.specs.Splice.{splice, Wide, entries_of, entry_bytes, value_bytes, LiesIn, Values, Roomy, laid_bytes};
ghost use Rattle.block.specs.Sizes.{nothing, next_of, measured, told, Low, Placed};

use keys::Entries;
use paper::{Block, BlockRead, KeyEntry, Verdict};

// ---- one number

// The number of W bytes at a place, 1, 2 or 8, in either byte order. A const parameter has no type that keeps it to these three, so it is asked.
#[tactic(auto, using(crate::proofs::Turns::one_byte))]
fn number<const W: usize>(s: &[u8], big: bool, at: usize) -> u64
    requires { Wide W × (at + W ≤ length s.now) }
    ensures { result ≡ num big W s.now at }
{
    match W {
        8 => order::bits(s, big, at),
        2 => order::short(s, big, at) as u64,
        _ => u64::from(s[at]),
    }
}

// A number in W bytes at a place, the byte that counts least first.
#[tactic(auto, using(crate::proofs::Turns::bytes_laid))]
fn put<const W: usize>(out: &mut [u8], at: usize, value: u64)
    requires { (W ≤ 8) × (at + W ≤ length out.old) }
    ensures { out.new ≡ splice out.old at (enc W value) }
{
    out[at..at + W].copy_from_slice(&value.to_le_bytes()[..W]);
}

// Four SHORTs: the header, and each key entry.
#[tactic(auto, using(crate::proofs::Turns::four_laid))]
fn put_four(out: &mut [u8], at: usize, numbers: [usize; 4])
    requires { at + 8 ≤ length out.old }
    ensures { out.new ≡ splice out.old at (encs 2 numbers) }
{
    let [first, second, third, fourth] = numbers;
    put::<2>(out, at, first as u64);
    put::<2>(out, at + 2, second as u64);
    put::<2>(out, at + 4, third as u64);
    put::<2>(out, at + 6, fourth as u64);
}

// ---- values

// Elements of W bytes, one after the other.
#[tactic(auto, using(crate::proofs::Turns::elements_turn))]
fn put_elements<const W: usize>(
    source: &[u8],
    big: bool,
    start: usize,
    count: usize,
    out: &mut [u8],
    at: usize,
)
    requires { Wide W × (start + W * count ≤ length source.now) × (at + W * count ≤ length out.old) }
    ensures { out.new ≡ splice out.old at (encs W (elems big W count (drop start source.now))) }
{
    for i in 0..count {
        put::<W>(out, at + W * i, number::<W>(source, big, start + W * i));
    }
}

// The value of an entry, if it is at this location; answers where the next one goes. A struct of where it comes from, or of where it goes, would be made for each
// entry and taken apart at once.
#[tactic(auto, using(crate::proofs::Writing::splice_nil), unfolding(paper::specs::Block::values_at, paper::specs::Block::elements, paper::specs::Block::count_if_at, paper::specs::Block::encs, paper::specs::Block::joined))]
fn put_value<const W: usize>(
    source: &[u8],
    big: bool,
    location: usize,
    e: KeyEntry,
    out: &mut [u8],
    at: usize,
) -> usize
    requires { Wide W × LiesIn location W source.now e × (at + W * count_if_at location e ≤ length out.old) }
    ensures value { out.new ≡ splice out.old at (encs W (values_at big location W source.now e)) }
    ensures next { result ≡ at + W * count_if_at location e }
{
    if e.location != location {
        return at;
    }
    put_elements::<W>(source, big, W * e.index, e.count, out, at);
    at + W * e.count
}

// ---- entries with their new indexes

// How many elements stand before an entry in each of the three parts: SHORTs, the numbers of header and entries among them, DOUBLEs and characters.
#[derive(Clone, Copy)]
struct Before {
    shorts: usize,
    doubles: usize,
    characters: usize,
}

impl Before {
    // Before the first of so many entries: the numbers of the header and of the entries.
    fn first(count: usize) -> Before
        requires { count ≤ 256 }
        ensures { result ≡ nothing count }
    {
        Before {
            shorts: 4 + 4 * count,
            doubles: 0,
            characters: 0,
        }
    }

    // The value index of the entry.
    #[tactic(auto, unfolding(paper::specs::Block::new_index))]
    fn index(self, e: KeyEntry) -> usize
        ensures { result ≡ new_index self.shorts self.doubles self.characters e }
    {
        match e.location {
            keys::DIRECTORY => self.shorts,
            keys::DOUBLES => self.doubles,
            keys::CHARACTERS => self.characters,
            _ => e.index,
        }
    }

    // Before the next entry.
    #[tactic(auto, unfolding(paper::specs::Block::count_if_at))]
    fn next(self, e: KeyEntry) -> Before
        requires { self.shorts + self.doubles + self.characters + e.count < 2 ^ 64 }
        ensures { result ≡ next_of self e }
    {
        match e.location {
            keys::DIRECTORY => Before {
                shorts: self.shorts + e.count,
                ..self
            },
            keys::DOUBLES => Before {
                doubles: self.doubles + e.count,
                ..self
            },
            keys::CHARACTERS => Before {
                characters: self.characters + e.count,
                ..self
            },
            _ => self,
        }
    }
}

// ---- all entries

// Whether a value outside its entry would start too far.
fn is_too_far(location: usize, index: usize) -> bool
    ensures { result ≡ not (eqb location 0) && ltb 65535 index }
{
    (location != 0) & (65535 < index)
}

// Rule 24: the first key whose value would start too far, or else how many elements stand before what follows the last entry, in each of the three parts.
#[tactic(auto, using(crate::proofs::Measuring::found_turn))]
fn measure(entries: Entries) -> Result<Before, Verdict>
    ensures sizes { result ≡ measured (nothing entries.entry.count) (entries_of entries.entry.big entries.entry.directory.now entries.entry.count) }
    ensures low { IfOk result (Low 256) }
{
    let mut before = Before::first(entries.count);
    for i in 0..entries.count {
        let e = entries.at(i);
        if is_too_far(e.location, before.index(e)) {
            return outcomes::refused(24, e.key as u32);
        }
        before = before.next(e);
    }
    Ok(before)
}

// The entries, each with its new index.
#[tactic(auto, using(crate::proofs::Turns::entries_turn, crate::proofs::Measuring::few_at))]
fn put_entries(entries: Entries, out: &mut [u8], at: usize)
    requires { at + 8 * entries.count ≤ length out.old }
    ensures { out.new ≡ splice out.old at (entry_bytes entries.entry.big entries.entry.directory.now entries.entry.count) }
{
    let mut before = Before::first(entries.count);
    for i in 0..entries.count {
        let e = entries.at(i);
        let index = before.index(e);
        put_four(out, at + 8 * i, [e.key, e.location, e.count, index]);
        before = before.next(e);
    }
}

// The values of all entries at one location, in the order of the keys.
#[tactic(auto, using(crate::proofs::Turns::values_turn))]
fn put_values<const W: usize>(
    entries: Entries,
    source: &[u8],
    location: usize,
    out: &mut [u8],
    at: usize,
)
    requires { Values entries.big entries.directory.now source.now W location entries.count at (length out.old) }
    ensures { out.new ≡ splice out.old at (value_bytes entries.entry.big W location source.now entries.entry.directory.now entries.entry.count) }
{
    let mut o = at;
    for i in 0..entries.count {
        let e = entries.at(i);
        o = put_value::<W>(source, entries.big, location, e, out, o);
    }
}

// ---- the block

// How many bytes each part of a block has.
#[derive(Clone, Copy)]
struct Lengths {
    directory: usize,
    doubles: usize,
    characters: usize,
}

// The whole block, where there is room: the header with the minor revision that was read, the entries, and the values of each location. The directory is d
// bytes long, the doubles x. A struct of these would be taken apart at once.
#[tactic(auto, using(crate::proofs::Laid::block_laid))]
fn put_block(
    entries: Entries,
    doubles: &[u8],
    characters: &[u8],
    minor: usize,
    d: usize,
    x: usize,
    out: &mut [u8],
)
    requires { Roomy entries.big entries.directory.now doubles.now characters.now entries.count d x (length out.old) }
    ensures { out.new ≡ splice out.old 0 (laid_bytes entries.entry.big entries.entry.directory.now doubles.now characters.now minor entries.entry.count) }
{
    put_four(out, 0, [1, 1, minor, entries.count]);
    put_entries(entries, out, 8);
    put_values::<2>(
        entries,
        entries.directory,
        keys::DIRECTORY,
        out,
        8 + 8 * entries.count,
    );
    put_values::<8>(entries, doubles, keys::DOUBLES, out, d);
    put_values::<1>(entries, characters, keys::CHARACTERS, out, d + x);
}

// The block of three runs that keep rule 17: rules 24 and 25 first, and only then the writing.
#[tactic(auto, using(crate::proofs::Whole::whole_block), unfolding(crate::specs::Sizes::measured, paper::specs::Block::block_in, paper::specs::Block::block_over, paper::specs::Block::block_verdict, paper::specs::Block::rule24, paper::specs::Block::rule25, paper::specs::Block::moved_keys, paper::specs::Outcome::first))]
fn write_runs(
    entries: Entries,
    doubles: &[u8],
    characters: &[u8],
    minor: usize,
    out: &mut [u8],
) -> Result<Lengths, Verdict>
    requires placed { Placed (runs entries.big entries.directory.now doubles.now characters.now) }
    requires revision { minor ≡ minor_revision (runs entries.big entries.directory.now doubles.now characters.now) }
    requires many { entries.count ≡ key_count (runs entries.big entries.directory.now doubles.now characters.now) }
    ensures answer { told result ≡ block_in (length out.old) (runs entries.entry.big entries.entry.directory.now doubles.now characters.now) }
    ensures bytes { out.new ≡ block_over out.old (runs entries.entry.big entries.entry.directory.now doubles.now characters.now) }
{
    let s = measure(entries)?;
    let d = 2 * s.shorts;
    let x = 8 * s.doubles;
    let need = d + x + s.characters;
    if out.len() < need {
        return outcomes::refused(25, need as u32);
    }
    put_block(entries, doubles, characters, minor, d, x, out);
    Ok(Lengths {
        directory: d,
        doubles: x,
        characters: s.characters,
    })
}

// The key block of a file, where it is accepted and rules 24 and 25 are kept.
#[tactic(auto, using(crate::proofs::Accepted::good_runs), unfolding(paper::specs::Calls::answer, paper::specs::Block::block_of, paper::specs::Block::block_left))]
fn write(file: &[u8], out: &mut [u8]) -> Result<Lengths, Verdict>
    ensures answer { told result ≡ block_of file.now (length out.old) }
    ensures bytes { out.new ≡ block_left file.now out.old }
{
    let e = judge::examine(file)?;
    let doubles = layout::value(file, e.image.doubles);
    let characters = layout::value(file, e.image.characters);
    // Made here and in `texts`: a function of both would have to ask that this is what an examination of this file found, which is known here.
    let entries = Entries {
        directory: layout::value(file, e.image.directory),
        big: e.image.big,
        count: e.surveyed.keys as usize,
    };
    write_runs(entries, doubles, characters, e.surveyed.minor as usize, out)
}

// The key block of a file, written into the lent bytes: the verdict and the lengths of its directory, doubles and characters. On a refusal
// nothing is written; bytes after the block stay.
pub fn key_block(file: &[u8], out: &mut [u8]) -> Block
    ensures answer { result ≡ block_of file.now (length out.old) }
    ensures bytes { out.new ≡ block_left file.now out.old }
{
    match write(file, out) {
        Ok(lengths) => Block {
            verdict: outcomes::ACCEPTED,
            directory: lengths.directory,
            doubles: lengths.doubles,
            characters: lengths.characters,
        },
        Err(verdict) => Block {
            verdict,
            directory: 0,
            doubles: 0,
            characters: 0,
        },
    }
}

// ---- reading back

// Three such runs without a file, little-endian: rules 15 to 19, K and the minor revision.
#[tactic(auto, unfolding(paper::specs::Calls::reading_back, paper::specs::Calls::read_runs, paper::specs::Calls::back_of, keys::specs::Pass::keys_judged, outcomes::specs::Ruled::ruled, paper::specs::Outcome::first, paper::specs::Keys::key_rules))]
pub fn read_block(directory: &[u8], doubles: &[u8], characters: &[u8]) -> BlockRead
    ensures { result ≡ reading_back directory.now doubles.now characters.now }
{
    let values = keys::Values {
        directory,
        doubles,
        characters,
    };
    match keys::judge_keys(false, values) {
        Ok(k) => BlockRead {
            verdict: outcomes::ACCEPTED,
            keys: k.keys,
            minor: k.minor,
        },
        Err(verdict) => BlockRead {
            verdict,
            keys: 0,
            minor: 0,
        },
    }
}
