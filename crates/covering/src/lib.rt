// Whether a link and what it leaves make up a board again:
// of the whole board, and of its four quarters about an origin.
#![tactic(auto)]

ghost use Rattle.std.specs.Prelude.{◌≡◌};
ghost use Rattle.element.specs.Descriptor.{most_cells};
ghost use Rattle.dividing.specs.Least.{below};
ghost use Rattle.covering.specs.Cover.{added, sum_row, bare, first_bare};
ghost use Rattle.covering.specs.Quarter.{beside, side_of, quarter_row, quarter, link_columns};
ghost use Rattle.covering.specs.Quarter.{link_rows, link_quarter};

use element::{MOST_CELLS, RowWord};

// Every cell of a row or of a link.
const ALL: RowWord = 0xffffffffffffffff;

// A row with another, where cell k of a link is set.
fn added(acc: RowWord, link: RowWord, k: usize, w: RowWord) -> RowWord
    ensures { result ≡ added acc link k w }
{
    if dividing::is_set(link, k) {
        return acc | w;
    }
    acc
}

// Row y of the sum of a board and a link, whose first cell is in column a.
fn sum_row(rest: &[RowWord; MOST_CELLS], link: RowWord, a: usize, y: usize) -> RowWord
    ensures { result ≡ sum_row rest.now link a y 64 }
{
    let mut acc = 0;
    for k in 0..64 {
        let w = dividing::turned(rest[(y % 64 + (64 - k / 8)) % 64], a % 8 + (64 - k % 8));
        acc = added(acc, link, k, w);
    }
    acc
}

// The sum leaves a set cell of row y out.
fn bare(
    rows: &[RowWord; MOST_CELLS],
    link: RowWord,
    a: usize,
    rest: &[RowWord; MOST_CELLS],
    y: usize,
) -> bool
    ensures { result ≡ bare rows.now link a rest.now y }
{
    let w = rows[y % 64];
    if w == 0 {
        return false;
    }
    let sum = sum_row(rest, link, a, y);
    (w | sum) != sum
}

// The first row of which it leaves a cell out.
pub fn first_bare(
    rows: &[RowWord; MOST_CELLS],
    link: RowWord,
    a: usize,
    rest: &[RowWord; MOST_CELLS],
) -> Option<usize>
    ensures { result ≡ below most_cells (first_bare rows.now link a rest.now) }
{
    (0..MOST_CELLS).find(|&y| bare(rows, link, a, rest, y))
}

// A column, or row, lies on one side of another, or on it.
fn beside(y: usize, of: usize, after: bool) -> bool
    ensures { result ≡ beside y of after }
{
    if after {
        return of <= y;
    }
    y <= of
}

// The columns on one side of another, and that one.
fn side_of(x: usize, after: bool) -> RowWord
    ensures { result ≡ side_of x after }
{
    if after {
        return ALL >> (x % 64);
    }
    ALL << (63 - x % 64)
}

fn quarter_row(w: RowWord, y: usize, column: usize, row: usize, right: bool, lower: bool) -> RowWord
    ensures { result ≡ quarter_row w y column row right lower }
{
    if beside(y, row, lower) {
        return w & side_of(column, right);
    }
    0
}

// The quarter of a board about a column and a row.
pub fn quarter(
    rows: &[RowWord; MOST_CELLS],
    column: usize,
    row: usize,
    right: bool,
    lower: bool,
) -> [RowWord; MOST_CELLS]
    ensures { result ≡ quarter rows.now column row right lower }
{
    let mut part = [0; MOST_CELLS];
    for y in 0..MOST_CELLS {
        part[y] = quarter_row(rows[y], y, column, row, right, lower);
    }
    part
}

// The columns of a link on one side of another, in every row.
fn link_columns(x: usize, after: bool) -> RowWord
    ensures { result ≡ link_columns x after }
{
    let from = [
        0xffffffffffffffffu64,
        0x7f7f7f7f7f7f7f7f,
        0x3f3f3f3f3f3f3f3f,
        0x1f1f1f1f1f1f1f1f,
        0xf0f0f0f0f0f0f0f,
        0x707070707070707,
        0x303030303030303,
        0x101010101010101,
    ];
    let to = [
        0x8080808080808080u64,
        0xc0c0c0c0c0c0c0c0,
        0xe0e0e0e0e0e0e0e0,
        0xf0f0f0f0f0f0f0f0,
        0xf8f8f8f8f8f8f8f8,
        0xfcfcfcfcfcfcfcfc,
        0xfefefefefefefefe,
        0xffffffffffffffff,
    ];
    if after {
        return from[x % 8];
    }
    to[x % 8]
}

// The rows of a link on one side of another.
fn link_rows(y: usize, after: bool) -> RowWord
    ensures { result ≡ link_rows y after }
{
    if after {
        return ALL >> (8 * (y % 8));
    }
    ALL << (8 * (7 - y % 8))
}

// The quarter of a link about its cell o.
pub fn link_quarter(link: RowWord, o: usize, right: bool, lower: bool) -> RowWord
    ensures { result ≡ link_quarter link o right lower }
{
    link & link_columns(o, right) & link_rows(o / 8, lower)
}
