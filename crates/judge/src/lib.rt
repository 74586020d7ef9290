// The whole judgement of a file: its image, rules 1 to 14 and 27, then the survey over the values that the image names, rules 15 to 22, then the mask that it
// may have, rule 28.
#![tactic(auto)]

ghost use Rattle.std.specs.Prelude.{◌≡◌, Some};
ghost use Rattle.paper.specs.Judge.{file_stage, mask_stage};
ghost use Rattle.paper.specs.Calls.{judged_of};
ghost use Rattle.outcomes.specs.Ruled.{ruled};
ghost use Rattle.judge.specs.Examining.{lasting_image, examined_of, own_of, judged_by};

use image::{Image, Next};
use keys::Values;
use paper::{Corners, Georeference, Judged, Verdict};
use survey::Surveyed;

// What one examination of a file finds: its survey, and its image.
#[derive(Clone, Copy)]
pub struct Examined {
    pub surveyed: Surveyed,
    pub image: Image,
}

// What a file shows by its own rules, 1 to 22 and 27.
fn examine_own(file: &[u8]) -> Result<Examined, Verdict>
    ensures { result ≡ own_of file.now }
{
    let seen = image::judge_image(file)?;
    let image = seen.image;
    let values = Values {
        directory: layout::value(file, image.directory),
        doubles: layout::value(file, image.doubles),
        characters: layout::value(file, image.characters),
    };
    let surveyed = survey::judge_survey(
        image.big,
        values,
        layout::value(file, seen.scale),
        layout::value(file, seen.tiepoint),
        layout::value(file, seen.matrix),
        image.size.width,
        image.size.length,
    )?;
    Ok(Examined { surveyed, image })
}

// Rule 28 of a file that keeps its own rules, whose image this is and whose next offset leads to a mask.
fn masked(file: &[u8], image: &Image, next: Next) -> Result<(), Verdict>
    requires { ((file_stage file.now).number ≡ 0) × (image.now ≡ lasting_image file.now) × (image.now.next ≡ Some next) }
    ensures { result ≡ ruled (mask_stage file.now) tt }
{
    second::judge_mask(file, image, next).map_err(|number| Verdict {
        number: 28,
        place: number,
    })?;
    Ok(())
}

// What a file shows. It is compiled into each of its callers, so that what is told of a mask burdens no file without one. What was found is taken out of its
// `Result`, which lent or handed on whole would be copied for each file, by a call of C's `memcpy`; and the mask is lent a copy of the image, so that a file
// without one has none.
#[inline(always)]
pub fn examine(file: &[u8]) -> Result<Examined, Verdict>
    ensures { result ≡ examined_of file.now }
{
    match examine_own(file) {
        Ok(e) => {
            if let Some(next) = e.image.next {
                let image = e.image;
                masked(file, &image, next)?;
            }
            Ok(e)
        }
        Err(verdict) => Err(verdict),
    }
}

// What is answered: of a refused file there is nothing beside the verdict.
fn judged(found: Result<Examined, Verdict>) -> Judged
    ensures { result ≡ judged_by found }
{
    match found {
        Ok(e) => {
            let s = e.surveyed;
            let georeference = s.georeference;
            let corners = s.corners;
            Judged {
                verdict: outcomes::ACCEPTED,
                keys: s.keys,
                minor: s.minor,
                georeference,
                corners,
            }
        }
        Err(verdict) => Judged {
            verdict,
            keys: 0,
            minor: 0,
            georeference: Georeference::Scaled {
                ti: 0.0,
                tj: 0.0,
                tx: 0.0,
                ty: 0.0,
                sx: 0.0,
                sy: 0.0,
            },
            corners: Corners {
                x0: 0.0,
                y0: 0.0,
                x1: 0.0,
                y1: 0.0,
            },
        },
    }
}

// The whole judgement: verdict and place, K, the minor revision, georeference and corners.
pub fn judge(file: &[u8]) -> Judged
    ensures { result ≡ judged_of file.now }
{
    judged(examine(file))
}
