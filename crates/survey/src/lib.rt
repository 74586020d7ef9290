// The survey, rules 15 to 22: the keys and the ground, over runs of bytes, their byte order and the size of the picture, without a file.
#![tactic(auto)]

ghost use Rattle.std.specs.Prelude.{◌≡◌};
ghost use Rattle.keys.specs.Pass.{lent_in};
ghost use Rattle.ground.specs.Answer.{Sized};
ghost use Rattle.survey.specs.Surveying.{surveyed_of};

use keys::Values;
use paper::{Corners, Georeference, Verdict};

// What is found where these rules are kept: the number of keys K, the minor revision of their header, and the place on the ground. It is flat, as the
// definitions tell it: what the keys and the ground answer holds the raster type too, which is no part of what is found.
#[derive(Clone, Copy)]
pub struct Surveyed {
    pub keys: u32,
    pub minor: u32,
    pub georeference: Georeference,
    pub corners: Corners,
}

// Rules 15 to 22, over runs, their byte order and the size of the picture; the run of an absent tag is empty. A struct of the runs of the ground would be taken apart
// at once; width and length come apart, since the type that holds both is of `tags`, on which this crate does not stand.
#[tactic(auto, unfolding(crate::specs::Surveying::surveyed_of, keys::specs::Pass::keys_judged, ground::specs::Answer::ground_judged, paper::specs::Outcome::first, paper::specs::Keys::key_rules, outcomes::specs::Ruled::ruled))]
pub fn judge_survey(
    big: bool,
    values: Values,
    scale: &[u8],
    tiepoint: &[u8],
    matrix: &[u8],
    width: u32,
    length: u32,
) -> Result<Surveyed, Verdict>
    requires { Sized scale.now tiepoint.now matrix.now }
    ensures { result ≡ surveyed_of (lent_in big values.entry) scale.now tiepoint.now matrix.now width length }
{
    let k = keys::judge_keys(big, values)?;
    let g = ground::judge_ground(big, scale, tiepoint, matrix, width, length, k.point)?;
    Ok(Surveyed {
        keys: k.keys,
        minor: k.minor,
        georeference: g.georeference,
        corners: g.corners,
    })
}
