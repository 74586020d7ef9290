// Places of a file that two runs of numbers name, and a search over them.

ghost use Rattle.std.specs.Prelude.{◌≡◌, ◌*◌, ◌<◌, ◌≤◌, length};
ghost use Rattle.order.specs.Width.{width};
ghost use Rattle.paper.specs.Pieces.{part};
ghost use Rattle.pieces.specs.Gaps.{out};

use crate::{Gap, Span};

// A run of numbers, which are LONGs (wide) or SHORTs.
#[derive(Clone, Copy)]
pub struct Run<'a> {
    pub bytes: &'a [u8],
    pub wide: bool,
}

// So many places: their offsets stand in a run, and so do their byte counts.
#[derive(Clone, Copy)]
pub struct Places<'a> {
    pub offsets: Run<'a>,
    pub bytecounts: Run<'a>,
    pub big: bool,
    pub many: usize,
    pub ghost few: { many < 4294967296 },
    pub ghost offsets_room: { width offsets.wide * many ≤ length offsets.bytes.now },
    pub ghost byte_counts_room: { width bytecounts.wide * many ≤ length bytecounts.bytes.now },
}

// One of them, as two numbers of at most 32 bits say: so many bytes from a start.
#[derive(Clone, Copy)]
pub struct Place {
    pub start: usize,
    pub len: usize,
    pub ghost start_low: { start < 4294967296 },
    pub ghost len_low: { len < 4294967296 },
}

// A place at which a search stopped, with its index.
#[derive(Clone, Copy)]
pub struct Stop {
    pub at: usize,
    pub place: Place,
}

// The same, or that no place stopped it, with the span of the places before.
#[derive(Clone, Copy)]
pub struct Reach {
    pub stop: Option<Stop>,
    pub span: Span,
}

// Whether a place has no bytes or does not lie in a gap. Its ends are counted from the low one of the gap: a place that starts before that wraps around. A gap
// that ends below where it begins holds no place.
fn is_out(g: Gap, p: Place) -> bool
    ensures { result ≡ out g (part p.start p.len) }
{
    let from = p.start.wrapping_sub(g.lo);
    let to = from.wrapping_add(p.len);
    (to <= from) | (g.hi.saturating_sub(g.lo) < to)
}

impl<'a> Places<'a> {
    ghost use Rattle.std.specs.Prelude.{◌≡◌};
    ghost use Rattle.pieces.specs.Reading.{Room, told, Fetched, Opened, Reached};

    // Place i, in a byte order and with widths that are told, so that a loop can have them as constants.
    fn fetch(&self, big: bool, wideoffsets: bool, widebytecounts: bool, i: usize) -> Place
        requires { Room self.now wideoffsets widebytecounts × (i < self.now.many) }
        ensures { (room : Room self.now wideoffsets widebytecounts) → Fetched (told self.now big wideoffsets widebytecounts room) (record { at = i; place = result }) }
    {
        Place {
            start: order::element(self.offsets.bytes, big, wideoffsets, i),
            len: order::element(self.bytecounts.bytes, big, widebytecounts, i),
        }
    }

    // The first place and its span.
    pub(crate) fn first(&self) -> Reach
        ensures { Opened self.now result }
    {
        if self.many == 0 {
            return Reach {
                stop: None,
                span: Span::NONE,
            };
        }
        let place = self.fetch(self.big, self.offsets.wide, self.bytecounts.wide, 0);
        Reach {
            stop: Some(Stop { at: 0, place }),
            span: Span::of(place),
        }
    }

    // The first place from `from` on that has no bytes or does not lie in the gap, and the span widened by the places before it, where one is asked for:
    // of the places as the constants tell them. It is never inlined, so that its loop has the registers to itself.
    #[inline(never)]
    fn search<
        const BIG: bool,
        const WIDEOFFSETS: bool,
        const WIDEBYTECOUNTS: bool,
        const SPANNED: bool,
    >(&self, from: usize, gap: Gap, span: Span) -> Reach
        requires { Room self.now WIDEOFFSETS WIDEBYTECOUNTS }
        ensures { (room : Room self.now WIDEOFFSETS WIDEBYTECOUNTS) → Reached (told self.now BIG WIDEOFFSETS WIDEBYTECOUNTS room) SPANNED from gap span result }
    {
        let mut span = span;
        for i in from..self.many {
            let place = self.fetch(BIG, WIDEOFFSETS, WIDEBYTECOUNTS, i);
            if is_out(gap, place) {
                return Reach {
                    stop: Some(Stop { at: i, place }),
                    span,
                };
            }
            if SPANNED {
                span = span.with(place);
            }
        }
        Reach { stop: None, span }
    }

    // The same, with a loop of its own for each pair of widths in each byte order, so that no turn asks what they are: 12 instructions a strip, and 13 to 14 where
    // the compiler was left to find these loops itself.
    pub(crate) fn skip<const SPANNED: bool>(&self, from: usize, gap: Gap, span: Span) -> Reach
        ensures { Reached self.now SPANNED from gap span result }
    {
        match (self.big, self.offsets.wide, self.bytecounts.wide) {
            (true, true, true) => self.search::<true, true, true, SPANNED>(from, gap, span),
            (true, true, false) => self.search::<true, true, false, SPANNED>(from, gap, span),
            (true, false, true) => self.search::<true, false, true, SPANNED>(from, gap, span),
            (true, false, false) => self.search::<true, false, false, SPANNED>(from, gap, span),
            (false, true, true) => self.search::<false, true, true, SPANNED>(from, gap, span),
            (false, true, false) => self.search::<false, true, false, SPANNED>(from, gap, span),
            (false, false, true) => self.search::<false, false, true, SPANNED>(from, gap, span),
            (false, false, false) => self.search::<false, false, false, SPANNED>(from, gap, span),
        }
    }

    // The same, where the code does not say whether a span is asked for.
    pub(crate) fn skip_on(&self, spanned: bool, from: usize, gap: Gap, span: Span) -> Reach
        ensures { Reached self.now spanned from gap span result }
    {
        if spanned {
            self.skip::<true>(from, gap, span)
        } else {
            self.skip::<false>(from, gap, span)
        }
    }
}
