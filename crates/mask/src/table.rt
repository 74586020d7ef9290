// The mask's table of tags, a line a tag as in the image's table: the lines of a picture's tags in the slots that they have there, and that of 254 behind
// them, all of them written out, so that the table stands whole. Which values are allowed is in `is_sized`, `is_single`, `is_plain` and `is_cut`.
use lines::{LONG, Line, MORE, SHORT, table};

pub const LINES: [Line; SLOTS] = table![
    [256, Always, SHORT, LONG, 1, 1],
    [257, Always, SHORT, LONG, 1, 1],
    [258, Always, SHORT, SHORT, 1, MORE],
    [259, Always, SHORT, SHORT, 1, 1],
    [262, Always, SHORT, SHORT, 1, 1],
    [273, Strips, SHORT, LONG, 1, MORE],
    [277, Always, SHORT, SHORT, 1, 1],
    [278, Strips, SHORT, LONG, 1, 1],
    [279, Strips, SHORT, LONG, 1, MORE],
    [284, Never, SHORT, SHORT, 1, 1],
    [322, Tiles, SHORT, LONG, 1, 1],
    [323, Tiles, SHORT, LONG, 1, 1],
    [324, Tiles, LONG, LONG, 1, MORE],
    [325, Tiles, SHORT, LONG, 1, MORE],
    [254, Always, LONG, LONG, 1, 1],
];

// The slot of 254: a plain number, as those of a picture's tags.
pub const SUBFILE: usize = 14;

// How many there are.
pub const SLOTS: usize = 15;
