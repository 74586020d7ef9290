// The second directory of a file, that of a mask: rules 4 to 14 and 27 of it, where the file keeps its own rules. Of the image the byte order, where its
// directory stands, the picture's size, the next offset and the span of its pieces are asked. Its entries, the further ones of 50909 too, are gathered anew, so
// that a file without a mask carries nothing for one. Of a broken rule only its number is told.
#![tactic(auto)]

ghost use Rattle.std.specs.Prelude.{◌≡◌};
ghost use Rattle.paper.specs.Judge.{mask_verdict};
ghost use Rattle.mask.specs.Masking.{numbered};
ghost use Rattle.second.specs.Before.{Before, Second, Found, Third, crossed};

use crossing::Picture;
use image::{Image, Next};
use layout::{Directory, Head};
use mask::table::SLOTS;
use paper::{Entry, Part};
use tags::table;

// Rules 13 and 14, with what was found of both directories. Here and below `next` is what `image.next` has where it leads to a mask, taken out once.
fn mask_pictures(
    file: &[u8],
    image: &Image,
    next: Next,
    d: Directory,
    tiled: bool,
    found: &[Entry; SLOTS],
) -> Result<(), u32>
    requires { Third file.now image.now next d tiled found.now }
    ensures { result ≡ numbered (crossed file.now) tt }
{
    // First of all, as in `mask_laid`: further down the list would be cleared by a call as well before it is filled.
    let mut ownfound = [layout::absent(); table::SLOTS];
    let start = Part {
        start: image.at,
        len: 2,
    };
    let own = Directory {
        big: image.big,
        at: image.at,
        count: order::short(layout::value(file, start), image.big, 0),
    };
    let entries = own.entries(file);
    let s = entries.judge(file.len());
    lines::gather(&table::LINES, entries, &mut ownfound);
    let pictured = Picture::new(own, &ownfound, tags::has_tiles(&ownfound));
    let masked = Picture::new(d, found, tiled);
    crossing::judge_pictures(file, &pictured, s.further, next.span, &masked, image.size)
}

// Rules 27 and 9 to 14, from what was found of the mask's directory.
fn mask_found(
    file: &[u8],
    image: &Image,
    next: Next,
    d: Directory,
    found: &[Entry; SLOTS],
) -> Result<(), u32>
    requires { Found file.now image.now next d found.now }
    ensures { result ≡ numbered (mask_verdict file.now) tt }
{
    let tiled = mask::judge_tags(file, d, image.size, found)?;
    mask_pictures(file, image, next, d, tiled, found)
}

// Rules 6 to 14 and 27, of a mask whose directory is laid.
fn mask_laid(file: &[u8], image: &Image, next: Next, d: Directory) -> Result<(), u32>
    requires { Second file.now image.now next d }
    ensures { result ≡ numbered (mask_verdict file.now) tt }
{
    let mut found = [layout::absent(); SLOTS];
    let entries = d.entries(file);
    let s = entries.judge(file.len());
    s.judged.map_err(|verdict| verdict.number)?;
    if s.next != 0 {
        return Err(8);
    }
    lines::gather(&mask::table::LINES, entries, &mut found);
    mask_found(file, image, next, d, &found)
}

// The number of the first rule that the mask breaks, if it breaks one. `next` is what `image.next` has where it leads to a mask.
pub fn judge_mask(file: &[u8], image: &Image, next: Next) -> Result<(), u32>
    requires { Before file.now image.now next }
    ensures { result ≡ numbered (mask_verdict file.now) tt }
{
    let head = Head {
        big: image.big,
        at: next.offset,
    };
    let directory = layout::open(file, head).map_err(|verdict| verdict.number)?;
    mask_laid(file, image, next, directory)
}
