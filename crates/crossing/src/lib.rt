// Where the picture of an image and that of its mask may lie: rules 13 and 14 of the mask. The full reading list is that of both directories, and neither
// picture may share a byte with it. The image's own picture is clear of the image's own list, so that three of the four cases are left: the mask's places
// against both lists, and the image's against the mask's. `SLOTS` is of the image's table, `table::SLOTS` of the mask's.
#![tactic(auto)]

ghost use Rattle.std.specs.Prelude.{◌≡◌, ◌≤◌, map, length};
ghost use Rattle.layout.specs.Parts.{value_part};
ghost use Rattle.image.specs.Naming.{Standing};
ghost use Rattle.mask.specs.Masking.{numbered};
ghost use Rattle.paper.specs.Pieces.{touches};
ghost use Rattle.paper.specs.Tags.{table, mask_table};
ghost use Rattle.paper.specs.Tests.{some};
ghost use Rattle.pieces.specs.Reading.{pieces_in};
ghost use Rattle.lines.specs.Ready.{at_slot};
ghost use Rattle.tags.specs.Index.{many, pictured};
ghost use Rattle.tags.specs.Slots.{slot_of_offsets, slot_of_byte_counts};
ghost use Rattle.crossing.specs.Pictures.{mask_many, shown, places_in, Image, Mask, pictures_of, Spanned, Listed, Inside, mask_list, both_lists};

use layout::{Directory, Further};
use mask::table;
use paper::{Entry, Part};
use pieces::{Listing, Places, Span};
use tags::Size;
use tags::table::SLOTS;

// A picture of a file: its directory, what was found of its table's tags, and the two entries that say where its pieces lie.
#[derive(Clone, Copy)]
pub struct Picture<'a> {
    pub directory: Directory,
    pub found: &'a [Entry],
    pub offsets: Entry,
    pub bytecounts: Entry,
}

impl<'a> Picture<'a> {
    // That of a directory, from what was found of its table's tags: in tiles or not.
    pub fn new(directory: Directory, found: &'a [Entry], tiled: bool) -> Picture<'a>
        requires { pictured ≤ length found.now }
        ensures { (result.directory ≡ directory) × (result.found.now ≡ found.now) × (result.offsets ≡ at_slot found.now (slot_of_offsets tiled)) × (result.bytecounts ≡ at_slot found.now (slot_of_byte_counts tiled)) }
    {
        Picture {
            directory,
            found,
            offsets: found[tags::offsets_slot(tiled)],
            bytecounts: found[tags::byte_counts_slot(tiled)],
        }
    }

    // Its pieces. `Standing` speaks of the file, which a picture does not hold, so it is asked and is no ghost field of it.
    fn places<'f>(&self, file: &'f [u8]) -> Places<'f>
        requires { Standing file.now self.now.offsets self.now.bytecounts }
        ensures { pieces_in result ≡ places_in file.now self.now }
    {
        image::places(file, self.directory.big, self.offsets, self.bytecounts)
    }
}

// Writes where the values of entries stand. By index: of parts that are written through a zip with `iter_mut` nothing is known behind the loop.
fn put_parts(parts: &mut [Part], found: &[Entry])
    requires { length parts.old ≡ length found.now }
    ensures { parts.new ≡ map value_part found.now }
{
    for (i, e) in found.iter().enumerate() {
        parts[i] = layout::part_of(*e);
    }
}

// How many parts the mask's list has: those of its table's tags and the directory. And both lists: those of both tables' tags, then the three ends, the head
// and the two directories.
const OWN: usize = table::SLOTS + 1;

const BOTH: usize = SLOTS + table::SLOTS + 3;

// Whether the mask's picture shares a byte with either list.
fn mask_crosses(file: &[u8], image: &Picture, further: Further, mask: &Picture, span: Span) -> bool
    requires { Standing file.now mask.now.offsets mask.now.bytecounts × Spanned (length file.now) (places_in file.now mask.now) span × Listed many image.now × Inside file.now further × Listed mask_many mask.now }
    ensures { result ≡ some (touches (both_lists file.now image.now further mask.now)) (places_in file.now mask.now) }
{
    // All parts begin as the head, which stays that of the third from the end.
    let mut parts = [Part { start: 0, len: 8 }; BOTH];
    parts[BOTH - 2] = image.directory.part();
    parts[BOTH - 1] = mask.directory.part();
    put_parts(&mut parts[SLOTS..BOTH - 3], mask.found);
    put_parts(&mut parts[..SLOTS], image.found);
    let list = image::listing(file, image.directory.big, further, &parts);
    pieces::clashes_all(&mask.places(file), file.len(), span, &list)
}

// Whether the image's picture shares a byte with the mask's list.
fn image_crosses(file: &[u8], image: &Picture, span: Span, mask: &Picture) -> bool
    requires { Standing file.now image.now.offsets image.now.bytecounts × Spanned (length file.now) (places_in file.now image.now) span × Listed mask_many mask.now }
    ensures { result ≡ some (touches (mask_list mask.now)) (places_in file.now image.now) }
{
    // All parts begin as the directory, which stays that of the last.
    let mut parts = [mask.directory.part(); OWN];
    put_parts(&mut parts[..OWN - 1], mask.found);
    let list = Listing {
        further: &[],
        big: mask.directory.big,
        parts: &parts,
    };
    pieces::clashes_all(&image.places(file), file.len(), span, &list)
}

// Rules 13 and 14 of a mask, or the number of the first that is broken. `further` are the further entries of the image's directory, and `span` is that of
// the image's pieces. File, image, mask and span stand side by side: each picture is tried against another list and with a span of its own, so that a struct
// of them would be made anew for each step. The mask's table is for an image of that size, which the clauses alone name.
pub fn judge_pictures(
    file: &[u8],
    image: &Picture,
    further: Further,
    span: Span,
    mask: &Picture,
    size: Size,
) -> Result<(), u32>
    requires { Image file.now image.now further span × Mask file.now mask.now size }
    ensures { result ≡ numbered (pictures_of file.now (shown table file.now image.now) (shown (mask_table size.width size.length) file.now mask.now)) tt }
{
    let reach = pieces::judge_within(&mask.places(file), file.len()).map_err(
        |verdict| verdict.number,
    )?;
    if mask_crosses(file, image, further, mask, reach) || image_crosses(file, image, span, mask) {
        return Err(14);
    }
    Ok(())
}
