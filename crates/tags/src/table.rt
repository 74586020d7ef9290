// The image's table of tags, as document 01 and request C-11 print it, a line a tag: its number, when it is needed, the one or two types that it may
// have, the least and the most of its count. Which values are allowed is in `allowed_values`.
use layout::{Cell, cells};
use lines::{ASCII, BYTE, DOUBLE, LONG, Line, MORE, SHORT, table};

pub const LINES: [Line; SLOTS] = table![
    [256, Always, SHORT, LONG, 1, 1],
    [257, Always, SHORT, LONG, 1, 1],
    [258, Always, SHORT, SHORT, 1, MORE],
    [259, Always, SHORT, SHORT, 1, 1],
    [262, Always, SHORT, SHORT, 1, 1],
    [273, Strips, SHORT, LONG, 1, MORE],
    [277, Always, SHORT, SHORT, 1, 1],
    [278, Strips, SHORT, LONG, 1, 1],
    [279, Strips, SHORT, LONG, 1, MORE],
    [284, Never, SHORT, SHORT, 1, 1],
    [322, Tiles, SHORT, LONG, 1, 1],
    [323, Tiles, SHORT, LONG, 1, 1],
    [324, Tiles, LONG, LONG, 1, MORE],
    [325, Tiles, SHORT, LONG, 1, MORE],
    [33550, Never, DOUBLE, DOUBLE, 3, 3],
    [33922, Never, DOUBLE, DOUBLE, 6, 6],
    [34264, Never, DOUBLE, DOUBLE, 16, 16],
    [34735, Always, SHORT, SHORT, 4, MORE],
    [34736, Never, DOUBLE, DOUBLE, 1, MORE],
    [34737, Never, ASCII, ASCII, 1, MORE],
    [50909, Never, BYTE, BYTE, 1, MORE],
];

// The line of each tag, from 0, which is the slot of its entry too: a constant for each line. Plain numbers, since they index lists: a variant of an enum would
// be cast at each use.
pub const WIDTH: usize = 0;

pub const LENGTH: usize = 1;

pub const BITS: usize = 2;

pub const COMPRESSION: usize = 3;

pub const PHOTOMETRIC: usize = 4;

pub const STRIP_OFFSETS: usize = 5;

pub const SAMPLES: usize = 6;

pub const ROWS_PER_STRIP: usize = 7;

pub const STRIP_BYTE_COUNTS: usize = 8;

pub const PLANAR: usize = 9;

pub const TILE_WIDTH: usize = 10;

pub const TILE_LENGTH: usize = 11;

pub const TILE_OFFSETS: usize = 12;

pub const TILE_BYTE_COUNTS: usize = 13;

pub const SCALE: usize = 14;

pub const TIEPOINT: usize = 15;

pub const MATRIX: usize = 16;

pub const KEY_DIRECTORY: usize = 17;

pub const DOUBLES: usize = 18;

pub const CHARACTERS: usize = 19;

pub const METADATA: usize = 20;

// How many there are.
pub const SLOTS: usize = 21;

// ---- the cells of the tags, for the pass over a directory

// The factor for which no two of them share a cell.
pub const FACTOR: u16 = 687;

pub const CELLS: [Cell; layout::CELLS] = cells![
    LINES: TILE_WIDTH, DOUBLES, TILE_LENGTH, CHARACTERS, _, TILE_OFFSETS, _, SAMPLES, TILE_BYTE_COUNTS, _, ROWS_PER_STRIP, METADATA, STRIP_BYTE_COUNTS, _,
    MATRIX, WIDTH, _, LENGTH, SCALE, _, BITS, _, _, COMPRESSION, TIEPOINT, _, PLANAR, _, STRIP_OFFSETS, _, KEY_DIRECTORY, PHOTOMETRIC,
];
