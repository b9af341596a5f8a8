// The links to choose from when a board is taken apart: those that divide it,
// each with the first origin that suits all four quarters.
#![tactic(auto)]

ghost use Rattle.std.specs.Prelude.{◌≡◌, ◌≤◌};
ghost use Rattle.dividing.specs.Least.{below};
ghost use Rattle.choosing.specs.Link.{link_no, fits, quarter_suits, suits, origin_for, origin_no};

use element::{MOST_CELLS, RowWord};

// Link j of a board whose first and last set cells are known:
// the cells near the first that are set near the last too.
// Its first cell is in column j % 8 of its first row, its last is cell 63 - j / 8.
pub fn link_no(rows: &[RowWord; MOST_CELLS], first: usize, last: usize, j: usize) -> RowWord
    ensures { result ≡ link_no rows.now first last j }
{
    let near = dividing::window(rows, first % 64 + (64 - j % 8), first / 64);
    let far = dividing::window(
        rows,
        last % 64 + (57 + j / 8 % 8),
        last / 64 % 64 + (57 + j / 64 % 8),
    );
    near & far & (0xffffffffffffffff << (8 * (j / 64 % 8)))
}

// It has both; unless the board is a single cell, it is none, and begins in its first column.
fn fits(link: RowWord, j: usize, single: bool) -> bool
    ensures { result ≡ fits link j single }
{
    if !dividing::is_set(link, j % 8) {
        return false;
    }
    if !dividing::is_set(link, 63 - j / 8 % 64) {
        return false;
    }
    if single {
        return true;
    }
    if 63 - j / 8 % 64 == j % 8 {
        return false;
    }
    link & 0x8080808080808080 != 0
}

// In one quarter about the origin, with the link's in its cell o, link and rest make up the board.
fn quarter_suits(
    rows: &[RowWord; MOST_CELLS],
    column: usize,
    row: usize,
    link: RowWord,
    a: usize,
    rest: &[RowWord; MOST_CELLS],
    o: usize,
    right: bool,
    lower: bool,
) -> bool
    ensures { result ≡ quarter_suits rows.now column row link a rest.now o
        right lower }
{
    let whole = covering::quarter(rows, column, row, right, lower);
    let x = (column % 64 + a % 8 + (64 - o % 8)) % 64;
    let y = (row % 64 + (64 - o / 8 % 8)) % 64;
    let part = covering::quarter(rest, x, y, right, lower);
    let cells = covering::link_quarter(link, o, right, lower);
    covering::first_bare(&whole, cells, a, &part).is_none()
}

// In all four.
fn suits(
    rows: &[RowWord; MOST_CELLS],
    column: usize,
    row: usize,
    link: RowWord,
    a: usize,
    rest: &[RowWord; MOST_CELLS],
    o: usize,
) -> bool
    ensures { result ≡ suits rows.now column row link a rest.now o }
{
    if !quarter_suits(rows, column, row, link, a, rest, o, false, false) {
        return false;
    }
    if !quarter_suits(rows, column, row, link, a, rest, o, true, false) {
        return false;
    }
    if !quarter_suits(rows, column, row, link, a, rest, o, false, true) {
        return false;
    }
    quarter_suits(rows, column, row, link, a, rest, o, true, true)
}

// The first cell of the link that suits as its origin.
fn origin_for(
    rows: &[RowWord; MOST_CELLS],
    column: usize,
    row: usize,
    link: RowWord,
    a: usize,
    rest: &[RowWord; MOST_CELLS],
) -> Option<usize>
    ensures { result ≡ below 64 (origin_for rows.now column row link a rest.now) }
{
    (0..64).find(|&o| suits(rows, column, row, link, a, rest, o))
}

// The origin of link j; none where it does not divide the board.
pub fn origin_no(
    rows: &[RowWord; MOST_CELLS],
    column: usize,
    row: usize,
    first: usize,
    last: usize,
    j: usize,
) -> Option<usize>
    requires { first ≤ 4096 }
    ensures { result ≡ below 64 (origin_no rows.now column row first last j) }
{
    let link = link_no(rows, first, last, j);
    if !fits(link, j, first + dividing::PLACES == last) {
        return None;
    }
    let rest = dividing::rest_of(rows, link, j % 8);
    if covering::first_bare(rows, link, j % 8, &rest).is_some() {
        return None;
    }
    origin_for(rows, column, row, link, j % 8, &rest)
}
