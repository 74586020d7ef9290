// The citation of a key and the metadata texts of a file: where they stand, by value, and as parts of what was lent, without a copy.
#![tactic(auto)]

ghost use Rattle.std.specs.Prelude.{◌≡◌, IfOk, IfSome, cond, [], ℕ, ◌+◌, ◌≤◌, ◌<◌, eqb, length};
ghost use Rattle.paper.specs.Bytes.{build};
ghost use Rattle.paper.specs.Keys.{key_at};
ghost use Rattle.paper.specs.Calls.{cited_of, citation, text_of, metadata_text};
ghost use Rattle.keys.specs.Pass.{runs};
ghost use Rattle.paper.specs.Judge.{verdict_of};
ghost use Rattle.judge.specs.Examining.{examined_in};
ghost use Rattle.texts.specs.Finding.{with_key};
ghost use Rattle.texts.specs.Told.{cited_by, text_by, text_or};

use image::Image;
use keys::{Entries, Kind};
use paper::{Cited, KeyEntry, Part, Text, Verdict};

// The first key entry with a key. `map` and `find` over the range leave a goal that does not close.
#[tactic(auto, using(crate::proofs::Sought::turns), unfolding(crate::specs::Finding::with_key))]
fn find_key(entries: Entries, key: usize) -> Option<KeyEntry>
    ensures { result ≡ with_key key (build (key_at (runs entries.entry.big entries.entry.directory.now [] [])) 0 entries.entry.count) }
{
    for i in 0..entries.count {
        let e = entries.at(i);
        if e.key == key {
            return Some(e);
        }
    }
    None
}

// The part of a file that holds the citation of a key, before its final "|"; rule 26.
#[tactic(auto, using(crate::proofs::Citing::cites), unfolding(judge::specs::Examining::examined_of, outcomes::specs::Ruled::ruled))]
fn find_citation(file: &[u8], key: u32) -> Result<Part, Verdict>
    ensures told { cited_by result ≡ cited_of file.now key }
    ensures within { IfOk result (λ p. p.start + p.len ≤ length file.now) }
{
    let e = judge::examine(file)?;
    let number = key as usize;
    if keys::kind_of(number) != Kind::Ascii {
        return outcomes::refused(26, key);
    }
    // Made here and in `block`: a function of both would have to ask that this is what an examination of this file found, which is known here.
    let entries = Entries {
        directory: layout::value(file, e.image.directory),
        big: e.image.big,
        count: e.surveyed.keys as usize,
    };
    let Some(found) = find_key(entries, number) else {
        return outcomes::refused(26, key);
    };
    Ok(Part {
        start: e.image.characters.start + found.index,
        len: found.count - 1,
    })
}

// Where the citation of a key stands in a file. Any number may be asked for.
pub fn cite(file: &[u8], key: u32) -> Cited
    ensures { (result ≡ cited_of file.now key) × (result.start + result.len ≤ length file.now) }
{
    match find_citation(file, key) {
        Ok(part) => Cited {
            verdict: outcomes::ACCEPTED,
            start: part.start,
            len: part.len,
        },
        Err(verdict) => Cited {
            verdict,
            start: 0,
            len: 0,
        },
    }
}

// The citation of a key, as the part of the file that holds it; empty on a refusal. Verdict and place go through references: the call is a public promise.
#[tactic(auto, unfolding(paper::specs::Calls::citation))]
pub fn citation<'a>(file: &'a [u8], key: u32, verdict: &mut u32, place: &mut u32) -> &'a [u8]
    ensures part { result.now ≡ citation file.now key }
    ensures verdict { verdict.new ≡ (cited_of file.now key).verdict.number }
    ensures place { place.new ≡ (cited_of file.now key).verdict.place }
{
    let c = cite(file, key);
    *verdict = c.verdict.number;
    *place = c.verdict.place;
    let part = Part {
        start: c.start,
        len: c.len,
    };
    layout::value(file, part)
}

// The part of an accepted file that holds text `number`, from 1 on; rule 29. Its entry is one of the further ones of 50909.
#[tactic(auto, using(crate::proofs::Telling::tells))]
fn later_text(file: &[u8], image: &Image, number: u32) -> Result<Part, Verdict>
    requires { ((verdict_of file.now).number ≡ 0) × (image.now ≡ (examined_in file.now).image) × (0 < number) }
    ensures told { (m : ℕ) → text_by result ≡ text_of file.now number m }
    ensures within { IfOk result (λ p. p.start + p.len ≤ length file.now) }
{
    let further = image.further;
    let k = number as usize;
    if further.many < k {
        return outcomes::refused(29, number);
    }
    let entries = further.bytes(file);
    let t = layout::entry_at(entries, image.big, further.start, 12 * (k - 1));
    Ok(layout::part_of(t))
}

// The part of a file that holds a metadata text, by its number, or none where the whole outside text is handed back: the file's own texts prevail.
#[tactic(auto, using(crate::proofs::Telling::tells), unfolding(judge::specs::Examining::examined_of, outcomes::specs::Ruled::ruled))]
fn find_text(file: &[u8], number: u32) -> Result<Option<Part>, Verdict>
    ensures told { (m : ℕ) → text_or m result ≡ text_of file.now number m }
    ensures within { IfOk result (λ o. IfSome o (λ p. p.start + p.len ≤ length file.now)) }
{
    let e = judge::examine(file)?;
    if number != 0 {
        return Ok(Some(later_text(file, &e.image, number)?));
    }
    Ok(e.image.metadata)
}

// Where a metadata text stands, by its number, with so many bytes of outside text lent beside the file: from 0 in the file, from 1 outside, as C gets it.
// Any number may be asked for.
pub fn text(file: &[u8], number: u32, outside: usize) -> Text
    ensures { (result ≡ text_of file.now number outside) × (result.start + result.len ≤ cond (eqb result.from 0) (length file.now) outside) }
{
    match find_text(file, number) {
        Ok(Some(part)) => Text {
            verdict: outcomes::ACCEPTED,
            from: 0,
            start: part.start,
            len: part.len,
        },
        Ok(None) => Text {
            verdict: outcomes::ACCEPTED,
            from: 1,
            start: 0,
            len: outside,
        },
        Err(verdict) => Text {
            verdict,
            from: 0,
            start: 0,
            len: 0,
        },
    }
}

// A metadata text, by its number: the part of the file where tag 50909 is present, else the whole outside text; empty on a refusal. Verdict and place go
// through references: the call is a public promise.
#[tactic(auto, unfolding(paper::specs::Calls::metadata_text))]
pub fn metadata<'a>(
    file: &'a [u8],
    outside: &'a [u8],
    number: u32,
    verdict: &mut u32,
    place: &mut u32,
) -> &'a [u8]
    ensures part { result.now ≡ metadata_text file.now number outside.now }
    ensures verdict { verdict.new ≡ (text_of file.now number (length outside.now)).verdict.number }
    ensures place { place.new ≡ (text_of file.now number (length outside.now)).verdict.place }
{
    let t = text(file, number, outside.len());
    *verdict = t.verdict.number;
    *place = t.verdict.place;
    let part = Part {
        start: t.start,
        len: t.len,
    };
    if t.from == 0 {
        layout::value(file, part)
    } else {
        layout::value(outside, part)
    }
}
