// What rules answer, as code makes them one after the other: a verdict where one is broken. In a loop an outcome is a number: the place where the rule is
// broken, or NONE.
#![tactic(auto)]

ghost use Rattle.std.specs.Prelude.{◌≡◌, cond, ◌≤◌, ◌<◌, Err};
ghost use Rattle.paper.specs.Outcome.{or_else, verdict};
ghost use Rattle.outcomes.specs.Told.{told_by};
ghost use Rattle.outcomes.specs.Ruled.{ruled};

use paper::{Outcome, Verdict};

// Above every SHORT: no place, and no number.
pub const NONE: usize = 65536;

// Broken at a place, or else what is known of the later entries.
pub fn broken_or(bad: bool, place: usize, later: usize) -> usize
    requires { (place ≤ 65536) × (later ≤ 65536) }
    ensures { result ≡ cond bad place later }
{
    if bad {
        return place;
    }
    later
}

// What such a number tells of its rule.
#[tactic(auto, unfolding(crate::specs::Told::told_by))]
pub fn told(place: usize) -> Outcome
    requires { place ≤ 65536 }
    ensures { result ≡ told_by place }
{
    if place == NONE {
        return Outcome::Kept;
    }
    Outcome::Broken(place as u32)
}

// The verdict that accepts.
pub const ACCEPTED: Verdict = Verdict {
    number: 0,
    place: 0,
};

// A refusal, in place of what else would be answered.
pub fn refused<T>(number: u32, place: u32) -> Result<T, Verdict>
    ensures { result ≡ Err (verdict number place) }
{
    Err(Verdict { number, place })
}

// A rule's verdict where it is broken, and else what the later rules give. Unlike `rule` it is a verdict in either case.
pub fn or_else(number: u32, outcome: Outcome, later: Verdict) -> Verdict
    ensures { result ≡ or_else number outcome later }
{
    if let Outcome::Broken(place) = outcome {
        return Verdict { number, place };
    }
    later
}

// One rule of several: a broken one is answered, and where it is kept the next may follow.
#[tactic(auto, unfolding(crate::specs::Ruled::ruled))]
pub fn rule(number: u32, outcome: Outcome) -> Result<(), Verdict>
    requires { 0 < number }
    ensures { result ≡ ruled (or_else number outcome (verdict 0 0)) tt }
{
    match outcome {
        Outcome::Kept => Ok(()),
        Outcome::Broken(place) => refused(number, place),
    }
}
