// The place on the ground and rules 20 to 22, from the runs of the scale, the tiepoint and the matrix. A double's bits are tested before
// it is made a number, and every operation is rounded once, in the written order. Each run is read whole by a function that is called
// at one place, so that the compiler puts it there and a double is one load.
#![tactic(auto)]

ghost use Rattle.std.specs.Prelude.{◌≡◌, ◌*◌, []};
ghost use Rattle.std.specs.Float.{binary64};
ghost use Rattle.std.specs.Float.Ieee.{of_bits};
ghost use Rattle.paper.specs.Bytes.{elems};
ghost use Rattle.paper.specs.Ground.{finite, last, finite_corners};
ghost use Rattle.ground.specs.Answer.{Holds, Sized, place_of, ground_judged};
ghost use Rattle.ground.specs.Steps.{surveyed, finite_bits, doubles_of, scale_of, affine_of, placed_at, far_corners};

use paper::{Corners, Georeference, Verdict};

// A place on the ground.
#[derive(Clone, Copy)]
pub struct Place {
    pub x: f64,
    pub y: f64,
}

// What is found where rules 20 to 22 are kept.
#[derive(Clone, Copy)]
pub struct Ground {
    pub georeference: Georeference,
    pub corners: Corners,
}

// The picture: how many columns and rows it has, and whether a pixel is a point.
#[derive(Clone, Copy)]
struct Picture {
    width: u32,
    length: u32,
    point: bool,
}

// ---- doubles

// Whether 64 bits are a finite double's: the exponent's field is not all ones. std tests a double alone, and `f64::from_bits` is not defined at a NaN's bits.
#[tactic(auto, using(crate::proofs::Finite::by_bits))]
fn finite_bits(b: u64) -> bool
    ensures { result ≡ finite (of_bits binary64 b) }
{
    b % 0x8000_0000_0000_0000 / 0x10_0000_0000_0000 != 2047
}

// The bits of the N doubles of a run. Its length is asked, here and below, and is no array's: a const argument, as 8 * N, cannot be computed.
#[tactic(auto, using(crate::proofs::Runs::elems_are))]
fn read<const N: usize>(run: &[u8], big: bool) -> [u64; N]
    requires { Holds (8 * N) run.now }
    ensures { result ≡ elems big 8 N run.now }
{
    let mut bits = [0; N];
    for (i, b) in bits.iter_mut().enumerate() {
        *b = order::bits(run, big, 8 * i);
    }
    bits
}

// Whether all of them are finite doubles'. No test waits for the one before: several are then made at once.
fn all_finite<const N: usize>(bits: &[u64; N]) -> bool
    ensures { result ≡ finite_bits bits.now }
{
    bits.iter().fold(true, |finite, b| finite & finite_bits(*b))
}

// The N doubles of a tag's run: by rule 21 all of them are finite, used or not.
#[tactic(auto, using(crate::proofs::Runs::made), unfolding(crate::specs::Steps::doubles_of))]
fn doubles<const N: usize>(run: &[u8], big: bool, tag: u32) -> Result<[f64; N], Verdict>
    requires { Holds (8 * N) run.now }
    ensures { result ≡ doubles_of tag big run.now }
{
    let bits = read::<N>(run, big);
    if !all_finite(&bits) {
        return outcomes::refused(21, tag);
    }
    // The index stays: behind a zip of `iter_mut` nothing is known of what was written, and the goal `returns` stays open. The array's `map` takes twice the instructions for 16 doubles.
    let mut found = [0.0; N];
    for (i, x) in found.iter_mut().enumerate() {
        *x = f64::from_bits(bits[i]);
    }
    Ok(found)
}

// ---- the mapping

// Where (i, j) of the picture lies on the ground.
pub fn place_of(g: Georeference, i: f64, j: f64) -> Place
    ensures { result ≡ place_of g i j }
{
    match g {
        Georeference::Scaled {
            ti,
            tj,
            tx,
            ty,
            sx,
            sy,
        } => Place {
            x: tx + (i - ti) * sx,
            y: ty - (j - tj) * sy,
        },
        Georeference::Affine {
            m1,
            m2,
            m4,
            m5,
            m6,
            m8,
        } => Place {
            x: (m1 * i + m2 * j) + m4,
            y: (m5 * i + m6 * j) + m8,
        },
    }
}

// The far end of k columns or rows: k, or k - 1 for PixelIsPoint.
#[tactic(auto, unfolding(paper::specs::Ground::last))]
fn far_end(point: bool, k: u32) -> f64
    ensures { result ≡ last point k }
{
    let last = if point { k.saturating_sub(1) } else { k };
    f64::from(last)
}

// The two corners: of (0, 0) and of the picture's far end.
fn corners_of(g: Georeference, picture: Picture) -> Corners
    ensures { result ≡ far_corners g picture }
{
    let near = place_of(g, 0.0, 0.0);
    let columns = far_end(picture.point, picture.width);
    let rows = far_end(picture.point, picture.length);
    let far = place_of(g, columns, rows);
    Corners {
        x0: near.x,
        y0: near.y,
        x1: far.x,
        y1: far.y,
    }
}

// ---- the answers

// Whether all four coordinates are finite.
#[tactic(auto, using(crate::proofs::Finite::same_finite), unfolding(paper::specs::Ground::finite_corners))]
fn finite_corners(c: Corners) -> bool
    ensures { result ≡ finite_corners c }
{
    c.x0.is_finite() & (c.y0.is_finite() & (c.x1.is_finite() & c.y1.is_finite()))
}

// Rule 22, with rules 20 and 21 kept.
#[tactic(auto, unfolding(crate::specs::Steps::placed_at, paper::specs::Outcome::first, paper::specs::Ground::rule22, outcomes::specs::Ruled::ruled))]
fn placed(g: Georeference, picture: Picture) -> Result<Ground, Verdict>
    ensures { result ≡ placed_at g (far_corners g picture) }
{
    let c = corners_of(g, picture);
    if finite_corners(c) {
        return Ok(Ground {
            georeference: g,
            corners: c,
        });
    }
    outcomes::refused(22, 0)
}

// ---- scale and tiepoint

// The scale: by rule 21 all three doubles are finite, X and Y above 0.
#[tactic(auto, using(crate::proofs::Runs::number_at), unfolding(crate::specs::Steps::doubles_of, crate::specs::Steps::scale_of, paper::specs::Ground::scales))]
fn scale_of(run: &[u8], big: bool) -> Result<[f64; 3], Verdict>
    requires { Holds 24 run.now }
    ensures { result ≡ scale_of big run.now }
{
    let scale = doubles::<3>(run, big, 33550)?;
    if (scale[0] > 0.0) & (scale[1] > 0.0) {
        return Ok(scale);
    }
    outcomes::refused(21, 33550)
}

// Rules 21 and 22 for scale and tiepoint with no matrix.
#[tactic(auto, using(crate::proofs::Runs::number_at), unfolding(crate::specs::Answer::ground_judged, paper::specs::Judge::ground_rules, paper::specs::Outcome::first, paper::specs::Outcome::first_of, paper::specs::Ground::rule20, paper::specs::Ground::rule21, paper::specs::Ground::georeference, paper::specs::Ground::corners, outcomes::specs::Ruled::ruled, crate::specs::Steps::placed_at, crate::specs::Steps::doubles_of, crate::specs::Steps::scale_of))]
fn judge_scaled(
    big: bool,
    scale: &[u8],
    tiepoint: &[u8],
    picture: Picture,
) -> Result<Ground, Verdict>
    requires { (Holds 24 scale.now) × (Holds 48 tiepoint.now) }
    ensures { result ≡ ground_judged (surveyed big scale.now tiepoint.now [] picture) }
{
    let [sx, sy, _] = scale_of(scale, big)?;
    let [ti, tj, _, tx, ty, _] = doubles::<6>(tiepoint, big, 33922)?;
    let scaled = Georeference::Scaled {
        ti,
        tj,
        tx,
        ty,
        sx,
        sy,
    };
    placed(scaled, picture)
}

// ---- the matrix

// The affine georeference: by rule 21 all sixteen doubles of the matrix are finite, its last row is 0, 0, 0, 1, and the two products of its first rows differ.
#[tactic(auto, using(crate::proofs::Runs::number_at), unfolding(crate::specs::Steps::doubles_of, crate::specs::Steps::affine_of, paper::specs::Ground::spans))]
fn affine_of(run: &[u8], big: bool) -> Result<Georeference, Verdict>
    requires { Holds 128 run.now }
    ensures { result ≡ affine_of big run.now }
{
    let [m1, m2, _, m4, m5, m6, _, m8, _, _, _, _, a, b, c, d] = doubles::<16>(run, big, 34264)?;
    let spans = (a == 0.0) & ((b == 0.0) & ((c == 0.0) & ((d == 1.0) & !(m1 * m6 == m2 * m5))));
    if spans {
        return Ok(Georeference::Affine {
            m1,
            m2,
            m4,
            m5,
            m6,
            m8,
        });
    }
    outcomes::refused(21, 34264)
}

// Rules 21 and 22 for the matrix with no scale and no tiepoint.
#[tactic(auto, using(crate::proofs::Runs::none_finite), unfolding(crate::specs::Answer::ground_judged, paper::specs::Judge::ground_rules, paper::specs::Outcome::first, paper::specs::Outcome::first_of, paper::specs::Ground::rule20, paper::specs::Ground::rule21, paper::specs::Ground::georeference, paper::specs::Ground::corners, outcomes::specs::Ruled::ruled, crate::specs::Steps::placed_at, crate::specs::Steps::affine_of))]
fn judge_affine(big: bool, matrix: &[u8], picture: Picture) -> Result<Ground, Verdict>
    requires { Holds 128 matrix.now }
    ensures { result ≡ ground_judged (surveyed big [] [] matrix.now picture) }
{
    let affine = affine_of(matrix, big)?;
    placed(affine, picture)
}

// ---- the whole

// Rules 20 to 22: the georeference and the corners, or the verdict. An absent tag's run is empty. A struct of the runs would be taken apart at once; width
// and length come apart, since the type that holds both is of `tags`, on which this crate does not stand.
#[tactic(auto, unfolding(crate::specs::Answer::ground_judged, paper::specs::Judge::ground_rules, paper::specs::Outcome::first, paper::specs::Ground::rule20, outcomes::specs::Ruled::ruled))]
pub fn judge_ground(
    big: bool,
    scale: &[u8],
    tiepoint: &[u8],
    matrix: &[u8],
    width: u32,
    length: u32,
    point: bool,
) -> Result<Ground, Verdict>
    requires { Sized scale.now tiepoint.now matrix.now }
    ensures { result ≡ ground_judged (record { big = big; scale = scale.now; tiepoint = tiepoint.now; matrix = matrix.now; width = width; length = length; point = point }) }
{
    let picture = Picture {
        width,
        length,
        point,
    };
    match (scale.is_empty(), tiepoint.is_empty(), matrix.is_empty()) {
        (false, false, true) => judge_scaled(big, scale, tiepoint, picture),
        (true, true, false) => judge_affine(big, matrix, picture),
        _ => outcomes::refused(20, 0),
    }
}
