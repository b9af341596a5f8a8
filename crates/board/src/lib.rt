// Which sums of cells a chain of links reaches inside a box of offsets, on boards of row words.
#![tactic(auto)]

ghost use Rattle.std.specs.Prelude.{◌≡◌, ◌≤◌, ◌<◌, take};
ghost use Rattle.element.specs.Descriptor.{most_cells};
ghost use Rattle.morphology.specs.Chain.{most_link_cells};
ghost use Rattle.reach.specs.Steps.Words.{sums, moved_of, spread_of, line_of};
ghost use Rattle.reach.specs.Steps.Words.{row_of, mask_of, cut_row, step_of, Cutting};
ghost use Rattle.reach.specs.Steps.Links.{Linked};
ghost use Rattle.reach.specs.Steps.Boards.{clipped, cut_of, start_of, onward_of, board_of};
ghost use Rattle.reach.specs.Steps.Boards.{InBytes, Small};

use answer::CENTRE;
use element::RowWord;
use picture::{Bin, Ping};
use reach::{Board, Bounds, Cut, Link, MOST_LINK_CELLS, MOST_LINKS, SUMS, Sum};

// A row word moved by c columns, where the cell of column c is set.
fn moved(line: u64, cells: RowWord, column: Ping) -> u64
    requires { column.0 < most_cells }
    ensures { result ≡ moved_of line cells column.0 }
{
    if element::cell(cells, column) {
        line << column.0
    } else {
        0
    }
}

// What the cells of one row of a link add to acc.
fn spread(acc: u64, line: u64, cells: RowWord, w: usize) -> u64
    requires { w ≤ most_cells }
    ensures { result ≡ spread_of acc line cells w }
{
    let mut a = acc;
    for c in 0..w {
        a = a | moved(line, cells, Ping(c as u16));
    }
    a
}

// The same, with no work for an empty row word.
fn spread_some(acc: u64, line: u64, cells: RowWord, w: usize) -> u64
    requires { w ≤ most_cells }
    ensures { result ≡ spread_of acc line cells w }
{
    if line == 0 {
        acc
    } else {
        spread(acc, line, cells, w)
    }
}

// The row word r rows back from row y.
fn line_back(board: &[u64; SUMS], y: Bin, r: Bin) -> u64
    requires { y.0 < sums }
    ensures { result ≡ line_of board.now y.0 r.0 }
{
    if r.0 <= y.0 {
        let at = (y.0 - r.0) as usize;
        board[at]
    } else {
        0
    }
}

// What a whole link gives in row y.
fn row(board: &[u64; SUMS], cells: &[RowWord; MOST_LINK_CELLS], w: usize, h: usize, y: Bin) -> u64
    requires { (w ≤ most_cells) × ((h ≤ most_link_cells) × (y.0 < sums)) }
    ensures { result ≡ row_of board.now cells.now w y.0 h }
{
    let mut a = 0;
    for r in 0..h {
        let line = line_back(board, y, Bin(r as u16));
        a = spread_some(a, line, cells[r], w);
    }
    a
}

// The columns inside the cut.
fn mask(cut: Cut) -> u64
    requires { Cutting cut }
    ensures { result ≡ mask_of cut.left cut.right }
{
    let one: u64 = 1;
    (((one << cut.right) - 1) >> cut.left) << cut.left
}

// Row y of the next board, inside the cut: nothing outside its rows.
fn cut_row(
    board: &[u64; SUMS],
    cells: &[RowWord; MOST_LINK_CELLS],
    w: usize,
    h: usize,
    m: u64,
    cut: Cut,
    y: Bin,
) -> u64
    requires { (w ≤ most_cells) × ((h ≤ most_link_cells) × (y.0 < sums)) }
    ensures { result ≡ cut_row board.now cells.now w h m cut y.0 }
{
    let at = y.0 as usize;
    if at < cut.top {
        return 0;
    }
    if cut.bottom <= at {
        return 0;
    }
    row(board, cells, w, h, y) & m
}

// The board after one more link.
fn step(
    board: &[u64; SUMS],
    cells: &[RowWord; MOST_LINK_CELLS],
    w: usize,
    h: usize,
    cut: Cut,
) -> [u64; SUMS]
    requires { (w ≤ most_cells) × ((h ≤ most_link_cells) × Cutting cut) }
    ensures { result ≡ step_of board.now cells.now w h cut }
{
    let m = mask(cut);
    let mut next = [0u64; SUMS];
    for y in 0..SUMS {
        next[y] = cut_row(board, cells, w, h, m, cut, Bin(y as u16));
    }
    next
}

// CENTRE less, within the board.
fn clipped(s: usize) -> usize
    ensures { result ≡ clipped s }
{
    if s < CENTRE {
        return 0;
    }
    if s - CENTRE < SUMS { s - CENTRE } else { SUMS }
}

// The sums whose offsets lie in the box, where the origins sum to o.
fn cut_by(o: Sum, m: Bounds) -> Cut
    requires in_bytes { InBytes m }
    requires small { Small o }
    ensures { result ≡ cut_of o m }
{
    Cut {
        left: clipped(o.column + m.left),
        right: clipped(o.column + m.right + 1),
        top: clipped(o.row + m.top),
        bottom: clipped(o.row + m.bottom + 1),
    }
}

// The sums 0 and 0 alone.
fn start() -> [u64; SUMS]
    ensures { result ≡ start_of }
{
    let mut b = [0u64; SUMS];
    b[0] = 1;
    b
}

// The board after the link e, whose origin brings the sum of origins to o.
fn onward(board: &[u64; SUMS], e: Link, o: Sum, m: Bounds) -> [u64; SUMS]
    requires w_le_most_cells { (e.outline.w ≤ most_cells) × (e.outline.h ≤ most_link_cells) }
    requires in_bytes { InBytes m }
    requires small { Small o }
    ensures { result ≡ onward_of board.now e o m }
{
    let cells = e.rows;
    let outline = e.outline;
    let cut = cut_by(o, m);
    step(board, &cells, outline.w, outline.h, cut)
}

// The board after the first k links.
pub fn reach(links: [Link; MOST_LINKS], k: usize, m: Bounds) -> Board
    requires linked { Linked links k }
    requires in_bytes { InBytes m }
    ensures { result ≡ board_of m (take k links) }
{
    let mut words = start();
    let mut column = 0;
    let mut row = 0;
    for i in 0..k {
        let e = links[i];
        let outline = e.outline;
        let o = outline.origin;
        let p = o.ping;
        let b = o.bin;
        column = column + p.0 as usize;
        row = row + b.0 as usize;
        words = onward(&words, e, Sum { column, row }, m);
    }
    Board {
        words,
        origin: Sum { column, row },
    }
}
