// Where the places of a picture may lie: rules 13 and 14 in one pass, each offset and byte count fetched once and tried against all ranges then; and
// each rule by itself, for a picture that few files have. The places are any two runs of numbers, the reading list any list of parts and a run of
// further entries, so that this serves every kind of picture.
#![tactic(auto)]

ghost use Rattle.std.specs.Prelude.{◌≡◌, ◌+◌, ◌<◌, ◌||◌, ◌==◌, nat_lt, Err};
ghost use Rattle.paper.specs.Outcome.{or_else, verdict};
ghost use Rattle.paper.specs.Pieces.{part, touches, rule13};
ghost use Rattle.paper.specs.Tests.{some};
ghost use Rattle.paper.specs.declared.Outcome.TheVariants.{Kept as kept};
ghost use Rattle.pieces.specs.Gaps.{whole, leaves, narrowed};
ghost use Rattle.pieces.specs.Reading.{pieces_in, pieces_from, listed};
ghost use Rattle.pieces.specs.Spans.{lone, widened, span_of, within_of, placed_of};

mod listing;
mod places;

pub use listing::Listing;
use paper::{Outcome, Part, Verdict};
pub use places::{Place, Places, Reach, Run, Stop};

// A gap of the reading list around a byte: no byte from lo up to hi is on it. Where the byte itself is on the list, it lies below lo. Then it
// may end below where it begins, so that it does so or not is no fact of the struct.
#[derive(Clone, Copy)]
pub struct Gap {
    pub lo: usize,
    pub hi: usize,
}

impl Gap {
    // A file of n bytes, behind its head.
    pub(crate) fn of_file(n: usize) -> Gap
        ensures { result ≡ whole n }
    {
        Gap { lo: 8, hi: n }
    }

    // The gap around a byte with one part more. One of at most 4 bytes lies in an entry, and so in the part of the whole directory: it counts as starting
    // at 0. Nothing here depends on a test that the processor would have to guess.
    #[tactic(auto, unfolding(crate::specs::Gaps::narrowed))]
    fn narrow(self, byte: usize, p: Part) -> Gap
        requires { (p.start < 68719476736) × (p.len < 68719476736) }
        ensures { result ≡ narrowed byte self p }
    {
        let from = if 4 < p.len { p.start } else { 0 };
        let to = from + p.len;
        if byte < from {
            Gap {
                lo: self.lo,
                hi: self.hi.min(from),
            }
        } else {
            Gap {
                lo: self.lo.max(to),
                hi: self.hi,
            }
        }
    }

    // Whether a place does not lie in the gap.
    fn is_left_by(self, p: Place) -> bool
        ensures { result ≡ leaves self (part p.start p.len) }
    {
        (p.start < self.lo) | (self.hi < p.start + p.len)
    }
}

// The span of some places: from the lowest start up to the highest end.
#[derive(Clone, Copy)]
pub struct Span {
    pub low: usize,
    pub high: usize,
}

impl Span {
    // That of no place. The const parameter of a search says whether a span is kept, and one that keeps none is lent this: an Option of a span beside that
    // parameter would say the same twice.
    const NONE: Span = Span { low: 0, high: 0 };

    // That of one.
    fn of(p: Place) -> Span
        ensures { result ≡ lone (part p.start p.len) }
    {
        Span {
            low: p.start,
            high: p.start + p.len,
        }
    }

    // A span with one place more.
    #[tactic(auto, unfolding(crate::specs::Spans::widened))]
    fn with(self, p: Place) -> Span
        ensures { result ≡ widened self (part p.start p.len) }
    {
        Span {
            low: self.low.min(p.start),
            high: self.high.max(p.start + p.len),
        }
    }
}

// Rule 13 at one place.
fn is_bad(p: Place, n: usize) -> bool
    ensures { result ≡ (p.len == 0) || (nat_lt p.start 8 || nat_lt n (p.start + p.len)) }
{
    (p.len == 0) | ((p.start < 8) | (n < p.start + p.len))
}

// The refusal of a place that breaks rule 13.
fn thirteen<T>(bad: Stop) -> Result<T, Verdict>
    requires { bad.at < 4294967296 }
    ensures { result ≡ Err (verdict 13 bad.at) }
{
    outcomes::refused(13, bad.at as u32)
}

// Rule 13 from a place on: the search passes by all that lie in the file, behind its head.
fn thirteen_from(places: &Places, from: usize, n: usize) -> Outcome
    ensures { result ≡ rule13 n (pieces_from places.now from) }
{
    let file = Gap::of_file(n);
    match places.skip::<false>(from, file, Span::NONE).stop {
        Some(bad) => Outcome::Broken(bad.at as u32),
        None => Outcome::Kept,
    }
}

// The same, where an earlier place breaks rule 14 at `clash`.
fn after_clash<T>(places: &Places, from: usize, n: usize, clash: u32) -> Result<T, Verdict>
    ensures { result ≡ Err (or_else 13 (rule13 n (pieces_from places.now from)) (verdict 14 clash)) }
{
    let fourteen = Verdict {
        number: 14,
        place: clash,
    };
    Err(outcomes::or_else(13, thirteen_from(places, from, n), fourteen))
}

// Rules 13 and 14 over places of a file of n bytes, with that reading list: where both are kept, the span of the places if one is asked for. `spanned` is the
// flag of the searches, and no Option of a span: there is none yet to hand in.
pub fn judge_places(
    places: &Places,
    n: usize,
    list: &Listing,
    spanned: bool,
) -> Result<Option<Span>, Verdict>
    ensures { result ≡ placed_of spanned n (listed list.now) (pieces_in places.now) }
{
    let mut reach = places.first();
    while let Some(stop) = reach.stop {
        let place = stop.place;
        if is_bad(place, n) {
            return thirteen(stop);
        }
        let gap = list.gap(n, place.start);
        if gap.is_left_by(place) {
            return after_clash(places, stop.at + 1, n, stop.at as u32);
        }
        reach = places.skip_on(spanned, stop.at + 1, gap, reach.span.with(place));
    }
    Ok(spanned.then_some(reach.span))
}

// Rule 13 alone, and the span of the places where it is kept.
pub fn judge_within(places: &Places, n: usize) -> Result<Span, Verdict>
    ensures { result ≡ within_of n (pieces_in places.now) }
{
    let first = places.first();
    let Some(stop) = first.stop else {
        return Ok(first.span);
    };
    if is_bad(stop.place, n) {
        return thirteen(stop);
    }
    let file = Gap::of_file(n);
    let reach = places.skip::<true>(1, file, first.span);
    match reach.stop {
        Some(later) => thirteen(later),
        None => Ok(reach.span),
    }
}

// Whether a place that keeps rule 13 in a file of n bytes shares a byte with a reading list. They are fetched only where a part of the list has a byte
// in their span, and then each once.
pub fn clashes_all(places: &Places, n: usize, span: Span, list: &Listing) -> bool
    requires { (rule13 n (pieces_in places.now) ≡ kept) × (span ≡ span_of (pieces_in places.now)) }
    ensures { result ≡ some (touches (listed list.now)) (pieces_in places.now) }
{
    if !list.meets(span.low, span.high) {
        return false;
    }
    let mut next = places.first().stop;
    while let Some(stop) = next {
        let gap = list.gap(n, stop.place.start);
        if gap.is_left_by(stop.place) {
            return true;
        }
        next = places.skip::<false>(stop.at + 1, gap, Span::NONE).stop;
    }
    false
}
