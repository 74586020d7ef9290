// A reading list.

ghost use Rattle.std.specs.Prelude.{◌≡◌, ◌+◌, ◌*◌, ◌<◌, ◌≤◌, not, ◌&&◌, length};
ghost use Rattle.pieces.specs.Gaps.{Addable, wide, clear};

use crate::Gap;
use paper::Part;

// A list of parts, and those that further entries name: each is 12 bytes, of type BYTE, with its count at byte 4 and its offset at byte 8.
#[derive(Clone, Copy)]
pub struct Listing<'a> {
    pub further: &'a [u8],
    pub big: bool,
    pub parts: &'a [Part],
    pub ghost low: { Addable parts.now },
}

// Whether a part counts and has a byte from low up to high. Where it ends is counted from its start, so that no sum has to fit.
fn is_met(p: Part, low: usize, high: usize) -> bool
    ensures { result ≡ wide p && not (clear low high p) }
{
    (4 < p.len) & ((low.saturating_sub(p.start) < p.len) & (p.start < high))
}

impl<'a> Listing<'a> {
    ghost use Rattle.paper.specs.Tests.{all};
    ghost use Rattle.pieces.specs.Gaps.{named_at, Found};
    ghost use Rattle.pieces.specs.Reading.{listed};

    // The part that further entry i names.
    #[tactic(auto, unfolding(crate::specs::Gaps::named_at))]
    fn named(&self, i: usize) -> Part
        requires { 12 * i + 12 ≤ length self.now.further.now }
        ensures { (result ≡ named_at self.now.big self.now.further.now i) × (result.start < 4294967296) × (result.len < 4294967296) }
    {
        Part {
            start: order::long(self.further, self.big, 12 * i + 8),
            len: order::long(self.further, self.big, 12 * i + 4),
        }
    }

    // The gap of the list around a byte of a file of n bytes.
    pub(crate) fn gap(&self, n: usize, byte: usize) -> Gap
        requires { 8 ≤ byte }
        ensures { Found byte n (listed self.now) result }
    {
        let mut g = Gap::of_file(n);
        for p in self.parts {
            g = g.narrow(byte, *p);
        }
        for i in 0..self.further.len() / 12 {
            g = g.narrow(byte, self.named(i));
        }
        g
    }

    // Whether a part of the list has a byte from low up to high. `any` over the entries leaves a goal that does not close.
    #[tactic(auto, using(crate::proofs::Listed::meets_part, crate::proofs::Listed::meets_named, crate::proofs::Listed::meets_none))]
    pub(crate) fn meets(&self, low: usize, high: usize) -> bool
        ensures { result ≡ not (all (clear low high) (listed self.now)) }
    {
        for part in self.parts {
            if is_met(*part, low, high) {
                return true;
            }
        }
        for j in 0..self.further.len() / 12 {
            if is_met(self.named(j), low, high) {
                return true;
            }
        }
        false
    }
}
