// What is measured of an element before the search for a chain: its extent, and its hull with the origin.
#![tactic(auto)]

ghost use Rattle.std.specs.Prelude.{◌≡◌, ◌-◌, ◌≤◌, ◌<◌};
ghost use Rattle.basics.specs.Lists.{firsts};
ghost use Rattle.element.specs.Descriptor.{most_cells};
ghost use Rattle.morphology.specs.Chain.{most_link_cells};
ghost use Rattle.hulls.specs.Extent.{seen, row_extent, extent_of};
ghost use Rattle.hulls.specs.Hull.{side_of, cut_of, own_row, hull_of};

use element::{Element, MOST_CELLS, RowWord};
use picture::Ping;
use reach::MOST_LINK_CELLS;

// Where the set cells of an element lie: in which columns and rows,
// and between which sums and differences of column and row, the latter with MOST_CELLS added.
#[derive(Clone, Copy)]
pub struct Extent {
    pub left: usize,
    pub right: usize,
    pub top: usize,
    pub bottom: usize,
    pub nearest: usize,
    pub farthest: usize,
    pub lowest: usize,
    pub highest: usize,
}

// The origin, the first and the last set column, or row, counted from the lesser of origin and first;
// and the greatest of them.
#[derive(Clone, Copy)]
pub struct Side {
    pub origin: usize,
    pub first: usize,
    pub last: usize,
    pub span: usize,
}

// The set cells and the origin, their corners cut, and the first rows of the cells as a link has them.
#[derive(Clone, Copy)]
pub struct Hull {
    pub across: Side,
    pub down: Side,
    pub nw: usize,
    pub ne: usize,
    pub sw: usize,
    pub se: usize,
    pub own: [u8; MOST_LINK_CELLS],
}

// The extent with the cell of a column and a row, where it is set.
fn grow(b: Extent, word: RowWord, column: usize, row: usize) -> Extent
    requires { (column < most_cells) × (row < most_cells) }
    ensures { result ≡ seen b word column row }
{
    if element::cell(word, Ping(column as u16)) {
        return Extent {
            left: b.left.min(column),
            right: b.right.max(column),
            top: b.top.min(row),
            bottom: b.bottom.max(row),
            nearest: b.nearest.min(column + row),
            farthest: b.farthest.max(column + row),
            lowest: b.lowest.min(column + MOST_CELLS - row),
            highest: b.highest.max(column + MOST_CELLS - row),
        };
    }
    b
}

// The extent with the cells of a row.
fn grow_row(b: Extent, word: RowWord, w: usize, row: usize) -> Extent
    requires { (w ≤ most_cells) × (row < most_cells) }
    ensures { result ≡ row_extent b word row w }
{
    let mut e = b;
    for c in 0..w {
        e = grow(e, word, c, row);
    }
    e
}

// The extent of an element's cells.
fn extent_of(cells: &[RowWord; MOST_CELLS], w: usize, h: usize) -> Extent
    requires { (w ≤ most_cells) × (h ≤ most_cells) }
    ensures { result ≡ extent_of cells.now w h }
{
    let mut e = Extent {
        left: MOST_CELLS,
        right: 0,
        top: MOST_CELLS,
        bottom: 0,
        nearest: 2 * MOST_CELLS,
        farthest: 0,
        lowest: 2 * MOST_CELLS,
        highest: 0,
    };
    for r in 0..h {
        e = grow_row(e, cells[r], w, r);
    }
    e
}

fn side_of(origin: usize, first: usize, last: usize) -> Side
    ensures { result ≡ side_of origin first last }
{
    let start = origin.min(first);
    Side {
        origin: origin.saturating_sub(start),
        first: first.saturating_sub(start),
        last: last.saturating_sub(start),
        span: origin.max(last).saturating_sub(start),
    }
}

// Row r of an element's cells from a row and a column on, as a link has it.
fn own_row(cells: &[RowWord; MOST_CELLS], left: usize, top: usize, r: usize) -> u8
    requires { (left < most_cells) × ((top < most_cells) × (r < most_cells)) }
    ensures { result ≡ own_row cells.now left top r }
{
    let at = (top + r).min(MOST_CELLS - 1);
    ((cells[at] << left) >> 56) as u8
}

// The first rows.
fn own_rows(cells: &[RowWord; MOST_CELLS], left: usize, top: usize) -> [u8; MOST_LINK_CELLS]
    requires { (left < most_cells) × (top < most_cells) }
    ensures { result ≡ firsts (own_row cells.now left top) most_link_cells }
{
    let mut rows = [0u8; MOST_LINK_CELLS];
    for r in 0..MOST_LINK_CELLS {
        rows[r] = own_row(cells, left, top, r);
    }
    rows
}

// How much of a corner is cut: what the nearest cell's sum or difference has beyond the corner's own.
fn cut_of(a: usize, b: usize, c: usize, d: usize) -> usize
    ensures { result ≡ cut_of a b c d }
{
    let sum = a.min(2 * MOST_CELLS) + b.min(2 * MOST_CELLS);
    sum.saturating_sub(c).saturating_sub(d)
}

// What is measured of an element before the search.
pub fn hull_of(e: Element) -> Hull
    requires { (e.outline.w ≤ most_cells) × (e.outline.h ≤ most_cells) }
    ensures { result ≡ hull_of e.outline.origin.ping.0 e.outline.origin.bin.0
        e.outline.w e.outline.h e.rows }
{
    let cells = e.rows;
    let outline = e.outline;
    let origin = outline.origin;
    let p = origin.ping;
    let b = origin.bin;
    let column = p.0 as usize;
    let row = b.0 as usize;
    let x = extent_of(&cells, outline.w, outline.h);
    let left = column.min(x.left).min(MOST_CELLS - 1);
    let top = row.min(x.top).min(MOST_CELLS - 1);
    let own = own_rows(&cells, left, top);
    let across = side_of(column, x.left, x.right);
    let down = side_of(row, x.top, x.bottom);
    Hull {
        across,
        down,
        nw: cut_of(x.nearest, 0, x.left, x.top),
        ne: cut_of(x.right, MOST_CELLS, x.highest, x.top),
        sw: cut_of(x.lowest, x.bottom, x.left, MOST_CELLS),
        se: cut_of(x.right, x.bottom, x.farthest, 0),
        own,
    }
}
