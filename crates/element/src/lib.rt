// An element by value, and where its descriptor ends.
#![tactic(auto)]

ghost use Rattle.std.specs.Prelude.{◌≡◌, ◌+◌, ◌*◌, ◌≤◌, ◌<◌, length};
ghost use Rattle.element.specs.Descriptor.{most_cells, cells_end, descriptor_length};
ghost use Rattle.element.specs.Record.{cell_on, origin_of};

use picture::{Bin, Depth, Ping, Point};

// The limit: cells across, and cells down. A row word has a bit for each.
pub const MOST_CELLS: usize = 64;

// The sign of a height's byte, which alone stands for no height.
pub const SIGN_BIT: u8 = 128;

// A row of cells: the first cell is the highest bit.
pub type RowWord = u64;

// An element's size and origin.
#[derive(Clone, Copy)]
pub struct Outline {
    pub w: usize,
    pub h: usize,
    pub origin: Point,
}

#[derive(Clone, Copy)]
pub struct Element {
    pub outline: Outline,
    pub rows: [RowWord; MOST_CELLS],
}

// The cell of a column in a row word: the first cell is the highest bit.
pub fn cell(word: RowWord, column: Ping) -> bool
    requires { column.0 < most_cells }
    ensures { result ≡ cell_on word column.0 }
{
    let c = usize::from(column.0);
    (word >> (MOST_CELLS - 1 - c)) & 1 == 1
}

// Where the rows of cells end, and the heights of a weighted descriptor begin.
pub fn cells_end(w: usize, h: usize) -> usize
    requires { (w ≤ 255) × (h ≤ 255) }
    ensures { result ≡ cells_end w h }
{
    4 + h * picture::row_bytes(Depth::OneBit, w)
}

// The origin, from the third and the fourth byte.
pub fn origin_of(d: &[u8]) -> Point
    requires { 4 ≤ length d.now }
    ensures { result ≡ origin_of d.now }
{
    Point {
        ping: Ping(u16::from(d[2])),
        bin: Bin(u16::from(d[3])),
    }
}

// How many of the bytes d, which may go on,
// are a descriptor by its own w and h; all of them where it is cut short.
#[tactic(auto, unfolding(crate::specs::Descriptor::descriptor_length))]
pub fn descriptor_len(d: &[u8]) -> usize
    ensures { result ≡ descriptor_length d.now }
{
    if d.len() < 2 {
        return d.len();
    }
    let end = cells_end(usize::from(d[0]), usize::from(d[1]));
    d.len().min(end)
}
