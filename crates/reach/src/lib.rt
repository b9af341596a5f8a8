// Links as the check of a chain holds them, and boards of the sums that they reach.
#![tactic(auto)]

ghost use Rattle.std.specs.Prelude.{◌≡◌};
ghost use Rattle.reach.specs.Steps.Links.{first_rows, link_by, no_link, OneByte};
ghost use Rattle.reach.specs.Steps.Boards.{holds_of, Small};

use answer::CENTRE;
use element::{MOST_CELLS, Outline, RowWord};
use picture::{Bin, Ping, Point};

// The limits: cells across and down of a link, and links of a chain.
pub const MOST_LINK_CELLS: usize = 8;

pub const MOST_LINKS: usize = 5;

// A sum takes a column and a row from each link: how many sums of columns there are, and so of rows.
pub const SUMS: usize = MOST_LINKS * (MOST_LINK_CELLS - 1) + 1;

// A link as the check holds it: an element's size and origin, and as many rows as a link has.
// It is what the loops copy; an element is eight times as long.
#[derive(Clone, Copy)]
pub struct Link {
    pub outline: Outline,
    pub rows: [RowWord; MOST_LINK_CELLS],
}

// A sum of columns and a sum of rows.
#[derive(Clone, Copy)]
pub struct Sum {
    pub column: usize,
    pub row: usize,
}

// An offset, each coordinate with CENTRE added.
#[derive(Clone, Copy)]
pub struct Offset {
    pub x: usize,
    pub y: usize,
}

// A box of offsets, its ends included, each with CENTRE added.
#[derive(Clone, Copy)]
pub struct Bounds {
    pub left: usize,
    pub right: usize,
    pub top: usize,
    pub bottom: usize,
}

// The sums of columns and rows whose offsets lie in a box:
// from left to before right, from top to before bottom.
#[derive(Clone, Copy)]
pub struct Cut {
    pub left: usize,
    pub right: usize,
    pub top: usize,
    pub bottom: usize,
}

// The sums reached, bit X of word Y for the sums X and Y;
// and the sum of the links' origins, which stands for the offset (0, 0).
#[derive(Clone, Copy)]
pub struct Board {
    pub words: [u64; SUMS],
    pub origin: Sum,
}

// The first rows of an element, as many as a link has.
fn first_rows(cells: &[RowWord; MOST_CELLS]) -> [RowWord; MOST_LINK_CELLS]
    ensures { result ≡ first_rows cells.now }
{
    let mut rows = [0; MOST_LINK_CELLS];
    for r in 0..MOST_LINK_CELLS {
        rows[r] = cells[r];
    }
    rows
}

// The link of an element that was read.
pub fn link_of(outline: Outline, cells: &[RowWord; MOST_CELLS]) -> Link
    ensures { result ≡ link_by outline cells.now }
{
    let rows = first_rows(cells);
    Link { outline, rows }
}

// What stands where no link is read.
pub fn no_link() -> Link
    ensures { result ≡ no_link }
{
    let rows = [0; MOST_LINK_CELLS];
    let outline = Outline {
        w: 0,
        h: 0,
        origin: Point {
            ping: Ping(0),
            bin: Bin(0),
        },
    };
    Link { outline, rows }
}

// The board has the sums that stand for the offset.
pub fn holds(words: &[u64; SUMS], o: Sum, at: Offset) -> bool
    requires small { Small o }
    requires one_byte { OneByte at }
    ensures { result ≡ holds_of words.now o at }
{
    let column = at.x + o.column;
    let row = at.y + o.row;
    if column < CENTRE {
        return false;
    }
    if row < CENTRE {
        return false;
    }
    if SUMS <= column - CENTRE {
        return false;
    }
    if SUMS <= row - CENTRE {
        return false;
    }
    (words[row - CENTRE] >> (column - CENTRE)) & 1 == 1
}
