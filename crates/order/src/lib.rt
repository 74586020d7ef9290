// Numbers of a file in either byte order: SHORT, LONG and the 64 bits of a DOUBLE at a place of a run. Each order reads its bytes from the one that
// counts least on, so that a number is one load, and a loop over numbers becomes one for each order. With from_be_bytes the loads of both orders are the
// same, the order is chosen after them, and a file takes 16 instructions in 100 more.
#![tactic(auto, using(crate::proofs::Sums::spelled))]

ghost use Rattle.std.specs.Prelude.{◌≡◌, ◌+◌, ◌*◌, ◌≤◌, ◌<◌, length};
ghost use Rattle.paper.specs.Bytes.{num};
ghost use Rattle.order.specs.Width.{width};

// The SHORT at a place; `big` says which end comes first.
pub fn short(s: &[u8], big: bool, at: usize) -> usize
    requires { at + 2 ≤ length s.now }
    ensures { (result ≡ num big 2 s.now at) × (result < 65536) }
{
    usize::from(if big {
        u16::from_le_bytes([s[at + 1], s[at]])
    } else {
        u16::from_le_bytes([s[at], s[at + 1]])
    })
}

// The LONG at a place.
pub fn long(s: &[u8], big: bool, at: usize) -> usize
    requires { at + 4 ≤ length s.now }
    ensures { (result ≡ num big 4 s.now at) × (result < 4294967296) }
{
    let n = if big {
        u32::from_le_bytes([s[at + 3], s[at + 2], s[at + 1], s[at]])
    } else {
        u32::from_le_bytes([s[at], s[at + 1], s[at + 2], s[at + 3]])
    };
    n as usize
}

// The 64 bits of the DOUBLE at a place: one load for both orders, so that the few doubles of a tag are read with no loop. Spelled as the LONG is, a matrix
// of a big-endian file takes 39 instructions in 100 more.
pub fn bits(s: &[u8], big: bool, at: usize) -> u64
    requires { at + 8 ≤ length s.now }
    ensures { result ≡ num big 8 s.now at }
{
    let bytes = [
        s[at],
        s[at + 1],
        s[at + 2],
        s[at + 3],
        s[at + 4],
        s[at + 5],
        s[at + 6],
        s[at + 7],
    ];
    if big {
        u64::from_be_bytes(bytes)
    } else {
        u64::from_le_bytes(bytes)
    }
}

// Number i of a run of LONGs (wide) or of SHORTs.
pub fn element(s: &[u8], big: bool, wide: bool, i: usize) -> usize
    requires { width wide * i + width wide ≤ length s.now }
    ensures { (result ≡ num big (width wide) s.now (width wide * i)) × (result < 4294967296) }
{
    if wide {
        long(s, big, 4 * i)
    } else {
        short(s, big, 2 * i)
    }
}
