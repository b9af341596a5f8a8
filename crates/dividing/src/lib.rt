// A board of 64 x 64 cells, and what is left of it when a link of at most 8 x 8 is taken out:
// the places where all cells of the link are set.
// A link is one word, row by row, its first cell the highest bit.
#![tactic(auto)]

ghost use Rattle.std.specs.Prelude.{◌≡◌, ◌≤◌, ◌<◌};
ghost use Rattle.dividing.specs.Board.{turned, is_set, cell_of, first_cell, last_cell, window};
ghost use Rattle.dividing.specs.Divide.{met, rest_row, rest_of};

use element::{MOST_CELLS, RowWord};

// The cells of a board.
pub const PLACES: usize = MOST_CELLS * MOST_CELLS;

// A row turned to the left, so that the cell of column x comes first.
pub fn turned(w: RowWord, x: usize) -> RowWord
    ensures { result ≡ turned w x }
{
    (w << (x % 64)) | ((w >> 1) >> (63 - x % 64))
}

// Cell k of a row or of a link is set.
pub fn is_set(w: RowWord, k: usize) -> bool
    ensures { result ≡ is_set w k }
{
    (w >> (63 - k % 64)) % 2 == 1
}

// Cell k of a board, counted row by row.
fn cell_of(rows: &[RowWord; MOST_CELLS], k: usize) -> bool
    ensures { result ≡ cell_of rows.now k }
{
    is_set(rows[k / 64 % 64], k)
}

// The first set cell of a board, or PLACES: its callers go on with the number whichever it is.
pub fn first_cell(rows: &[RowWord; MOST_CELLS]) -> usize
    ensures { (result ≡ first_cell rows.now) × (result ≤ 4096) }
{
    (0..PLACES).find(|&k| cell_of(rows, k)).unwrap_or(PLACES)
}

// The last set cell, with PLACES added.
pub fn last_cell(rows: &[RowWord; MOST_CELLS]) -> usize
    ensures { result ≡ last_cell rows.now }
{
    let back = (0..PLACES).find(
        |&k|
            requires { k < 4096 }
        { cell_of(rows, 2 * PLACES - 1 - k) },
    );
    2 * PLACES - 1 - back.unwrap_or(PLACES)
}

// The 8 x 8 cells of a board from a column and a row on, as a link.
pub fn window(rows: &[RowWord; MOST_CELLS], x: usize, y: usize) -> RowWord
    ensures { result ≡ window rows.now x y 8 }
{
    let mut v = 0;
    for r in 0..8 {
        v = (v << 8) | (turned(rows[(y % 64 + r) % 64], x) >> 56);
    }
    v
}

// What stays of a row where cell k of a link has to lie on another.
fn met(acc: RowWord, link: RowWord, k: usize, w: RowWord) -> RowWord
    ensures { result ≡ met acc link k w }
{
    if is_set(link, k) {
        return acc & w;
    }
    acc
}

// Row y of what is left: where the link lies on set cells,
// named by the place of its first cell, which is in column a.
fn rest_row(rows: &[RowWord; MOST_CELLS], link: RowWord, a: usize, y: usize) -> RowWord
    ensures { result ≡ rest_row rows.now link a y 64 }
{
    let mut acc = rows[y % 64];
    for k in 0..64 {
        let w = turned(rows[(y % 64 + k / 8) % 64], k % 8 + (64 - a % 8));
        acc = met(acc, link, k, w);
    }
    acc
}

// What is left of a board.
pub fn rest_of(rows: &[RowWord; MOST_CELLS], link: RowWord, a: usize) -> [RowWord; MOST_CELLS]
    ensures { result ≡ rest_of rows.now link a }
{
    let mut rest = [0; MOST_CELLS];
    for y in 0..MOST_CELLS {
        rest[y] = rest_row(rows, link, a, y);
    }
    rest
}
