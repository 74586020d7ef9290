// The C interface: each call of the judge under a name for C, with C's parameters. Numbers are answered through references, a slice is a pointer and a length, and
// include/petalbuzz.h declares the same for C.
#![tactic(auto)]

ghost use Rattle.std.specs.Prelude.{◌≡◌, cond, ◌+◌, ◌≤◌, eqb, length};
ghost use Rattle.paper.specs.Judge.{verdict_of};
ghost use Rattle.paper.specs.Bytes.{run};
ghost use Rattle.paper.specs.Calls.{judged_of, rows_of, left_rows, cited_of, citation, text_of, metadata_text, reading_back};
ghost use Rattle.paper.specs.Block.{block_of, block_left};
ghost use Rattle.petalbuzz.specs.Numbers.{form_of, six_of, four_of, lengths_of};

use paper::Georeference;

// Verdict and place of a file.
#[unsafe(no_mangle)]
pub extern "C" fn petalbuzz_judge(file: &[u8], verdict: &mut u32, place: &mut u32)
    ensures verdict { verdict.new ≡ (verdict_of file.now).number }
    ensures place { place.new ≡ (verdict_of file.now).place }
{
    let answer = judge::judge(file);
    *verdict = answer.verdict.number;
    *place = answer.verdict.place;
}

// The form of a georeference, by C's number: 0 scaled, 1 affine.
fn form_of(g: Georeference) -> u32
    ensures { result ≡ form_of g }
{
    match g {
        Georeference::Scaled { .. } => 0,
        Georeference::Affine { .. } => 1,
    }
}

// Its six doubles, in C's order.
fn six_of(g: Georeference) -> [f64; 6]
    ensures { result ≡ six_of g }
{
    match g {
        Georeference::Scaled {
            ti,
            tj,
            tx,
            ty,
            sx,
            sy,
        } => [ti, tj, tx, ty, sx, sy],
        Georeference::Affine {
            m1,
            m2,
            m4,
            m5,
            m6,
            m8,
        } => [m1, m2, m4, m5, m6, m8],
    }
}

// Verdict and place of a file with its place on the ground: the form of the georeference, 0 scaled or 1 affine, its six doubles, and the corners.
#[unsafe(no_mangle)]
pub extern "C" fn petalbuzz_ground(
    file: &[u8],
    verdict: &mut u32,
    place: &mut u32,
    form: &mut u32,
    six: &mut [f64; 6],
    corners: &mut [f64; 4],
)
    ensures verdict { verdict.new ≡ (verdict_of file.now).number }
    ensures place { place.new ≡ (verdict_of file.now).place }
    ensures form { form.new ≡ form_of (judged_of file.now).georeference }
    ensures six { six.new ≡ six_of (judged_of file.now).georeference }
    ensures corners { corners.new ≡ four_of (judged_of file.now).corners }
{
    let j = judge::judge(file);
    *verdict = j.verdict.number;
    *place = j.verdict.place;
    let g = j.georeference;
    *form = form_of(g);
    *six = six_of(g);
    let c = j.corners;
    *corners = [c.x0, c.y0, c.x1, c.y1];
}

// ---- the key rows

// The key rows of a file, written to the rows that are lent: verdict and place, and K. Nothing is written on a refusal.
#[unsafe(no_mangle)]
pub extern "C" fn petalbuzz_rows(
    file: &[u8],
    rows: &mut [paper::Row],
    verdict: &mut u32,
    place: &mut u32,
    keys: &mut u32,
)
    ensures { (verdict.new ≡ (rows_of file.now (length rows.old)).verdict.number)
        × (place.new ≡ (rows_of file.now (length rows.old)).verdict.place)
        × (keys.new ≡ (rows_of file.now (length rows.old)).keys)
        × (rows.new ≡ left_rows file.now rows.old) }
{
    let counted = rows::key_rows(file, rows);
    *verdict = counted.verdict.number;
    *place = counted.verdict.place;
    *keys = counted.keys;
}

// ---- the texts of a file

// Where the citation of a key stands in a file: its start and its length, with verdict and place.
#[unsafe(no_mangle)]
pub extern "C" fn petalbuzz_citation(
    file: &[u8],
    key: u32,
    verdict: &mut u32,
    place: &mut u32,
    start: &mut usize,
    len: &mut usize,
)
    ensures verdict { verdict.new ≡ (cited_of file.now key).verdict.number }
    ensures place { place.new ≡ (cited_of file.now key).verdict.place }
    ensures start { start.new ≡ (cited_of file.now key).start }
    ensures len { len.new ≡ (cited_of file.now key).len }
    ensures part { run file.now start.new len.new ≡ citation file.now key }
    ensures within { start.new + len.new ≤ length file.now }
{
    let c = texts::cite(file, key);
    *verdict = c.verdict.number;
    *place = c.verdict.place;
    *start = c.start;
    *len = c.len;
}

// Where a metadata text stands, by its number, from 0 in the file or 1 in the outside text: its start and its length there, with verdict and place.
#[unsafe(no_mangle)]
pub extern "C" fn petalbuzz_metadata(
    file: &[u8],
    outside: &[u8],
    number: u32,
    verdict: &mut u32,
    place: &mut u32,
    from: &mut u32,
    start: &mut usize,
    len: &mut usize,
)
    ensures verdict { verdict.new ≡ (text_of file.now number (length outside.now)).verdict.number }
    ensures place { place.new ≡ (text_of file.now number (length outside.now)).verdict.place }
    ensures from { from.new ≡ (text_of file.now number (length outside.now)).from }
    ensures start { start.new ≡ (text_of file.now number (length outside.now)).start }
    ensures len { len.new ≡ (text_of file.now number (length outside.now)).len }
    ensures part { run (cond (eqb from.new 0) file.now outside.now) start.new len.new ≡ metadata_text file.now number outside.now }
    ensures within { start.new + len.new ≤ cond (eqb from.new 0) (length file.now) (length outside.now) }
{
    let t = texts::text(file, number, outside.len());
    *verdict = t.verdict.number;
    *place = t.verdict.place;
    *from = t.from;
    *start = t.start;
    *len = t.len;
}

// ---- the key block

// The key block of a file, written into the lent bytes: verdict and place, and the lengths in bytes of its directory, doubles and characters.
#[unsafe(no_mangle)]
pub extern "C" fn petalbuzz_key_block(
    file: &[u8],
    out: &mut [u8],
    verdict: &mut u32,
    place: &mut u32,
    lengths: &mut [usize; 3],
)
    ensures bytes { out.new ≡ block_left file.now out.old }
    ensures verdict { verdict.new ≡ (block_of file.now (length out.old)).verdict.number }
    ensures place { place.new ≡ (block_of file.now (length out.old)).verdict.place }
    ensures lengths { lengths.new ≡ lengths_of (block_of file.now (length out.old)) }
{
    let b = block::key_block(file, out);
    *verdict = b.verdict.number;
    *place = b.verdict.place;
    *lengths = [b.directory, b.doubles, b.characters];
}

// Three such runs read back without a file: verdict and place, the number of keys, and the minor revision.
#[unsafe(no_mangle)]
pub extern "C" fn petalbuzz_read_block(
    directory: &[u8],
    doubles: &[u8],
    characters: &[u8],
    verdict: &mut u32,
    place: &mut u32,
    keys: &mut u32,
    minor: &mut u32,
)
    ensures verdict { verdict.new ≡ (reading_back directory.now doubles.now characters.now).verdict.number }
    ensures place { place.new ≡ (reading_back directory.now doubles.now characters.now).verdict.place }
    ensures keys { keys.new ≡ (reading_back directory.now doubles.now characters.now).keys }
    ensures minor { minor.new ≡ (reading_back directory.now doubles.now characters.now).minor }
{
    let k = block::read_block(directory, doubles, characters);
    *verdict = k.verdict.number;
    *place = k.verdict.place;
    *keys = k.keys;
    *minor = k.minor;
}
