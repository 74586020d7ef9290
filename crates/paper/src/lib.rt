// The types that the calls and the definitions share. Each is passed by value. There is no function here: this crate is the
// paper. `specs/` says what the rules mean, `proofs/` what follows from them; `proofs/Demands.antt` is the page to read first.
#![tactic(auto)]

// What every call answers first: 0 or the number of the broken rule, and its place. Document 01 names its rules by these numbers alone, as C and the ledger do,
// so they are no enum.
#[derive(Clone, Copy)]
pub struct Verdict {
    pub number: u32,
    pub place: u32,
}

// What one rule answers: it is kept, or it is broken at a place. It is no Option and no Result: the definitions of the rules and the theorems on them are stated in
// these two words.
#[derive(Clone, Copy)]
pub enum Outcome {
    Kept,
    Broken(u32),
}

// A part of a file: so many bytes from a start.
#[derive(Clone, Copy)]
pub struct Part {
    pub start: usize,
    pub len: usize,
}

// An entry of a directory: its tag, type and count, where its value starts in the file and how many bytes it has.
#[derive(Clone, Copy)]
pub struct Entry {
    pub tag: usize,
    pub typ: usize,
    pub count: usize,
    pub start: usize,
    pub len: usize,
}

// An entry of the key directory, as it stands there. The index is the number itself at location 0.
#[derive(Clone, Copy)]
pub struct KeyEntry {
    pub key: usize,
    pub location: usize,
    pub count: usize,
    pub index: usize,
}

// A key row: key, kind (0 SHORT, 1 DOUBLE, 2 ASCII, 3 other), first byte in the file, length in bytes, and where the key's entry stands in the file. C lends rows
// of this layout.
#[repr(C)]
#[derive(Clone, Copy)]
pub struct Row {
    pub key: u32,
    pub kind: u32,
    pub first: u32,
    pub len: u32,
    pub entry: u32,
}

// The georeference: scaled, from tiepoint and scale, or affine, with the matrix's elements counted from 1.
#[derive(Clone, Copy)]
pub enum Georeference {
    Scaled {
        ti: f64,
        tj: f64,
        tx: f64,
        ty: f64,
        sx: f64,
        sy: f64,
    },
    Affine {
        m1: f64,
        m2: f64,
        m4: f64,
        m5: f64,
        m6: f64,
        m8: f64,
    },
}

// The two corners: where (0, 0) lies on the ground, and where the far end of the picture does.
#[derive(Clone, Copy)]
pub struct Corners {
    pub x0: f64,
    pub y0: f64,
    pub x1: f64,
    pub y1: f64,
}

// The whole judgement of a file: verdict, the number of keys K, the minor revision of its key header, and its place on the ground. This and what follows are no
// Results: a refusal tells zeros beside its verdict, as document 01 says of each call and as C is lent them.
#[derive(Clone, Copy)]
pub struct Judged {
    pub verdict: Verdict,
    pub keys: u32,
    pub minor: u32,
    pub georeference: Georeference,
    pub corners: Corners,
}

// What the call for rows answers: verdict and K.
#[derive(Clone, Copy)]
pub struct Counted {
    pub verdict: Verdict,
    pub keys: u32,
}

// What the call that reads a key block back answers: verdict, K and the minor revision.
#[derive(Clone, Copy)]
pub struct BlockRead {
    pub verdict: Verdict,
    pub keys: u32,
    pub minor: u32,
}

// Where a citation stands in the file.
#[derive(Clone, Copy)]
pub struct Cited {
    pub verdict: Verdict,
    pub start: usize,
    pub len: usize,
}

// Where a metadata text stands: in the file (from 0) or in the outside text (from 1), by C's number.
#[derive(Clone, Copy)]
pub struct Text {
    pub verdict: Verdict,
    pub from: u32,
    pub start: usize,
    pub len: usize,
}

// The three lengths of the key block, in bytes.
#[derive(Clone, Copy)]
pub struct Block {
    pub verdict: Verdict,
    pub directory: usize,
    pub doubles: usize,
    pub characters: usize,
}
