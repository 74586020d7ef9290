// The image of a file, rules 1 to 7, 9 to 14 and 27: its head, its directory by the table, where its pieces lie. What it leaves is the picture's size, the
// byte order, where the directory stands, the next offset and, where that leads to a mask, the span of the pieces; where the values stand that others read,
// and where 50909 stands more than once. The survey judges some of these, the mask others.
#![tactic(auto)]

ghost use Rattle.std.specs.Prelude.{◌≡◌, ◌+◌, ◌*◌, ◌≤◌, ◌<◌, ◌==◌, ◌++◌, length};
ghost use Rattle.outcomes.specs.Ruled.{ruled};
ghost use Rattle.paper.specs.Bytes.{run};
ghost use Rattle.paper.specs.Tags.{table};
ghost use Rattle.paper.specs.Judge.{picture_stage};
ghost use Rattle.layout.specs.Opening.{LaidAt};
ghost use Rattle.pieces.specs.Gaps.{Addable, parts_of, named_parts};
ghost use Rattle.pieces.specs.Reading.{pieces_in, listed};
ghost use Rattle.tags.specs.Index.{many};
ghost use Rattle.tags.specs.Tagging.{view_of};
ghost use Rattle.image.specs.Imaging.{image_in, image_of};
ghost use Rattle.image.specs.Naming.{Standing, named_pieces};
ghost use Rattle.image.specs.Stages.{present_part, Passed, Fits, placed_in, outer_of};

use layout::{Directory, Further};
use paper::{Entry, Part, Verdict};
use pieces::{Listing, Places, Run, Span};
use tags::table::SLOTS;
use tags::{Pictured, Size, table};

// Where the next offset leads, where it is not 0, and the span of the pieces, which is asked for a mask alone.
#[derive(Clone, Copy)]
pub struct Next {
    pub offset: u32,
    pub span: Span,
}

// The image of a file: the byte order, the picture's size, where the directory stands, the next offset if it is not 0, and where the values stand that more than
// the survey asks for. Of these only the metadata text tells whether it is there: of the others an absent one is as one with no bytes.
#[derive(Clone, Copy)]
pub struct Image {
    pub big: bool,
    pub size: Size,
    pub at: usize,
    pub next: Option<Next>,
    pub directory: Part,
    pub doubles: Part,
    pub characters: Part,
    pub metadata: Option<Part>,
    pub further: Further,
}

// What these rules find of a file: its image, and where the values stand that the survey alone asks for. They stand beside the image, which is told to the end: with
// them what an examination finds would have more than 256 bytes, and a compiler would clear the room for it by a call of C's `memset`.
#[derive(Clone, Copy)]
pub struct Imaged {
    pub image: Image,
    pub scale: Part,
    pub tiepoint: Part,
    pub matrix: Part,
}

// ---- the pieces

// The numbers that an entry of SHORTs or LONGs names.
fn run_of<'a>(file: &'a [u8], e: Entry) -> Run<'a>
    requires { e.start + e.len ≤ length file.now }
    ensures bytes { result.bytes.now ≡ run file.now e.start e.len }
    ensures wide { result.wide ≡ (e.typ == 4) }
{
    Run {
        bytes: layout::value(file, layout::part_of(e)),
        wide: e.typ == lines::LONG,
    }
}

// The pieces of a picture, by the entries of its offsets and of its byte counts.
#[tactic(auto, unfolding(crate::specs::Naming::named_pieces, pieces::specs::Reading::pieces_in))]
pub fn places<'a>(file: &'a [u8], big: bool, offsets: Entry, bytecounts: Entry) -> Places<'a>
    requires { Standing file.now offsets bytecounts }
    ensures { pieces_in result ≡ named_pieces file.now big offsets bytecounts }
{
    Places {
        offsets: run_of(file, offsets),
        bytecounts: run_of(file, bytecounts),
        big,
        many: offsets.count,
    }
}

// The reading list of these parts and of those that further entries name.
#[tactic(auto, unfolding(pieces::specs::Reading::listed))]
pub fn listing<'a>(file: &'a [u8], big: bool, further: Further, parts: &'a [Part]) -> Listing<'a>
    requires { (further.start + 12 * further.many ≤ length file.now) × Addable parts.now }
    ensures { listed result ≡ named_parts big (run file.now further.start (12 * further.many)) further.many ++ parts_of parts.now }
{
    Listing {
        further: further.bytes(file),
        big,
        parts,
    }
}

// How many parts of the reading list may lie outside the entries: 258, the two tags of the pieces, seven of the survey, the head and the directory.
const OUTER: usize = 12;

// These parts, where the pieces have slots a and b: the tags with one SHORT or LONG are left out, and the slots of the family that is absent.
#[tactic(auto, unfolding(crate::specs::Stages::outer_of))]
fn outer(found: &[Entry; SLOTS], a: usize, b: usize, directory: Part) -> [Part; OUTER]
    requires { (a < many) × (b < many) }
    ensures { result ≡ outer_of found.now a b directory }
{
    [
        layout::part_of(found[table::BITS]),
        layout::part_of(found[a]),
        layout::part_of(found[b]),
        layout::part_of(found[table::SCALE]),
        layout::part_of(found[table::TIEPOINT]),
        layout::part_of(found[table::MATRIX]),
        layout::part_of(found[table::KEY_DIRECTORY]),
        layout::part_of(found[table::DOUBLES]),
        layout::part_of(found[table::CHARACTERS]),
        layout::part_of(found[table::METADATA]),
        Part { start: 0, len: 8 },
        directory,
    ]
}

// Rules 13 and 14, over the runs of the pieces' offsets and byte counts, and their span if it is asked for. The reading list is the head, the directory,
// and what the entries that were found and the further ones of 50909 say.
fn judge_pieces(
    file: &[u8],
    d: Directory,
    picture: Pictured,
    found: &[Entry; SLOTS],
    further: Further,
    spanned: bool,
) -> Result<Option<Span>, Verdict>
    requires { Fits file.now d.big d.at d.count picture found.now further }
    ensures { result ≡ placed_in spanned (view_of table file.now d.big d.at d.count) }
{
    let a = tags::offsets_slot(picture.tiled);
    let b = tags::byte_counts_slot(picture.tiled);
    let places = places(file, d.big, found[a], found[b]);
    let parts = outer(found, a, b, d.part());
    let list = listing(file, d.big, further, &parts);
    pieces::judge_places(&places, file.len(), &list, spanned)
}

// ---- the image

// Where the value of a tag stands that may be absent.
fn part_if(e: Entry) -> Option<Part>
    ensures { result ≡ present_part e }
{
    (e.start != 0).then_some(layout::part_of(e))
}

// Rules 27 and 9 to 14, from what was found of the directory's entries.
fn image_found(
    file: &[u8],
    d: Directory,
    next: u32,
    found: &[Entry; SLOTS],
    further: Further,
) -> Result<Imaged, Verdict>
    requires { Passed file.now d.big d.at d.count found.now further }
    ensures { result ≡ ruled (picture_stage (view_of table file.now d.big d.at d.count)) (image_in (view_of table file.now d.big d.at d.count) next) }
{
    let picture = tags::judge_tags(file, d, found, further)?;
    let span = judge_pieces(file, d, picture, found, further, next != 0)?;
    let image = Image {
        big: d.big,
        size: picture.size,
        at: d.at,
        next: span.map(|span| Next { offset: next, span }),
        directory: layout::part_of(found[table::KEY_DIRECTORY]),
        doubles: layout::part_of(found[table::DOUBLES]),
        characters: layout::part_of(found[table::CHARACTERS]),
        metadata: part_if(found[table::METADATA]),
        further,
    };
    Ok(Imaged {
        image,
        scale: layout::part_of(found[table::SCALE]),
        tiepoint: layout::part_of(found[table::TIEPOINT]),
        matrix: layout::part_of(found[table::MATRIX]),
    })
}

// Rules 6, 7, 9 to 14 and 27, of a file whose directory is laid.
fn image_laid(file: &[u8], d: Directory) -> Result<Imaged, Verdict>
    requires { LaidAt file.now d.big d.at d.count }
    ensures { result ≡ image_of file.now }
{
    let mut found = [layout::absent(); SLOTS];
    let entries = d.entries(file);
    let s = entries.scan(&table::CELLS, table::FACTOR, file.len(), &mut found);
    s.judged?;
    image_found(file, d, s.next, &found, s.further)
}

// Rules 1 to 7, 9 to 14 and 27.
pub fn judge_image(file: &[u8]) -> Result<Imaged, Verdict>
    ensures { result ≡ image_of file.now }
{
    let head = layout::read_head(file)?;
    let directory = layout::open(file, head)?;
    image_laid(file, directory)
}
