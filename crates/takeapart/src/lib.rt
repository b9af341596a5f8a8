// An element taken apart into a sum of links: the widest link that divides what is left, with an origin that
// suits all four quarters, and so on; back where it fails, within a bound on the steps.
// That the links are a chain for the element is not promised: the check is asked of them.
#![tactic(auto)]

ghost use Rattle.std.specs.Prelude.{◌≡◌, ◌≤◌, ltb};
ghost use Rattle.dividing.specs.Least.{below};
ghost use Rattle.choosing.specs.Link.{origin_no};
ghost use Rattle.takeapart.specs.Walk.{after, board_at, pick_from, ended, forth, back, onward};
ghost use Rattle.takeapart.specs.Sum.{sum_byte, sum_bytes, walked};

use element::{MOST_CELLS, RowWord};

// How many links there are to choose from at each step, and how many steps the search goes.
pub const CHOICES: usize = 512;

pub const STEPS: usize = 64;

// What is left to be taken apart, and its origin.
#[derive(Clone, Copy)]
pub struct Board {
    pub rows: [RowWord; MOST_CELLS],
    pub column: usize,
    pub row: usize,
}

// The links taken so far, each with its number and its origin, and how many they are.
#[derive(Clone, Copy)]
pub struct Way {
    pub picks: [usize; 6],
    pub links: [RowWord; 6],
    pub origins: [usize; 6],
    pub depth: usize,
}

// Link j divides a board whose first and last set cells are known.
fn divides(
    rows: &[RowWord; MOST_CELLS],
    column: usize,
    row: usize,
    first: usize,
    last: usize,
    j: usize,
) -> bool
    requires { first ≤ 4096 }
    ensures { result ≡ ltb (origin_no rows.now column row first last j) 64 }
{
    choosing::origin_no(rows, column, row, first, last, j).is_some()
}

// The first link from a number on that divides the board.
fn pick_from(b: Board, from: usize) -> Option<usize>
    ensures { result ≡ below 512 (pick_from b from) }
{
    let rows = b.rows;
    let first = dividing::first_cell(&rows);
    let last = dividing::last_cell(&rows);
    (from..CHOICES).find(
        |&j|
            requires { first ≤ 4096 }
        { divides(&rows, b.column, b.row, first, last, j) },
    )
}

// What is left when a link with its first cell in column a and its origin in cell o is taken out.
fn after(b: Board, link: RowWord, a: usize, o: usize) -> Board
    ensures { result ≡ after b.rows b.column b.row link a o }
{
    let rows = b.rows;
    Board {
        rows: dividing::rest_of(&rows, link, a),
        column: (b.column % 64 + a % 8 + (64 - o % 8)) % 64,
        row: (b.row % 64 + (64 - o / 8 % 8)) % 64,
    }
}

// When all links of a way are taken out.
fn board_at(b: Board, w: Way) -> Board
    ensures { result ≡ board_at b w w.depth }
{
    let links = w.links;
    let picks = w.picks;
    let origins = w.origins;
    let mut at = b;
    for i in 0..w.depth {
        at = after(at, links[i % 6], picks[i % 6], origins[i % 6]);
    }
    at
}

// A single cell is left, and the origin is in it.
fn ended(b: Board) -> bool
    ensures { result ≡ ended b }
{
    let rows = b.rows;
    let first = dividing::first_cell(&rows);
    if first + dividing::PLACES != dividing::last_cell(&rows) {
        return false;
    }
    if first % 64 != b.column {
        return false;
    }
    first / 64 == b.row
}

// Link j is taken; the next is chosen from the first on.
fn forth(b: Board, w: Way, j: usize) -> Way
    ensures { result ≡ forth b w j }
{
    let rows = b.rows;
    let first = dividing::first_cell(&rows);
    let last = dividing::last_cell(&rows);
    let at = w.depth % 6;
    let mut picks = w.picks;
    picks[at] = j;
    picks[(at + 1) % 6] = 0;
    let mut links = w.links;
    links[at] = choosing::link_no(&rows, first, last, j);
    let mut origins = w.origins;
    origins[at] = choosing::origin_no(&rows, b.column, b.row, first, last, j).unwrap_or(64);
    Way {
        picks,
        links,
        origins,
        depth: at + 1,
    }
}

// The link before is given back, and the next one looked for in its place.
fn back(w: Way) -> Way
    ensures { result ≡ back w }
{
    if w.depth == 0 {
        return w;
    }
    let at = (w.depth - 1) % 6;
    let mut picks = w.picks;
    let links = w.links;
    let origins = w.origins;
    picks[at] = basics::lesser(picks[at], CHOICES) + 1;
    Way {
        picks,
        links,
        origins,
        depth: w.depth - 1,
    }
}

// One step of the search.
fn onward(b: Board, w: Way) -> Way
    ensures { result ≡ onward b w }
{
    if w.depth < 5 {
        let picks = w.picks;
        if let Some(j) = pick_from(b, picks[w.depth % 6]) {
            return forth(b, w, j);
        }
    }
    back(w)
}

// Where the search leads: its links are a sum for the board if it ended within its steps.
pub fn walk(rows: [RowWord; MOST_CELLS], column: usize, row: usize) -> Way
    ensures { result ≡ walked rows column row }
{
    let b = Board { rows, column, row };
    let mut w = Way {
        picks: [0; 6],
        links: [0; 6],
        origins: [0; 6],
        depth: 0,
    };
    for n in 0..STEPS {
        let at = board_at(b, w);
        if ended(at) {
            return w;
        }
        w = onward(at, w);
    }
    w
}

// Byte n of the links of a way: size, origin, rows.
fn sum_byte(w: Way, n: usize) -> u8
    ensures { result ≡ sum_byte w n }
{
    let links = w.links;
    let origins = w.origins;
    if n % 12 < 2 {
        return 8;
    }
    if n % 12 == 2 {
        return (origins[n / 12 % 6] % 8) as u8;
    }
    if n % 12 == 3 {
        return (origins[n / 12 % 6] / 8 % 8) as u8;
    }
    ((links[n / 12 % 6] << (8 * (n % 12 - 4))) >> 56) as u8
}

// The descriptors of five links.
pub fn sum_bytes(w: Way) -> [u8; 60]
    ensures { result ≡ sum_bytes w }
{
    let mut bytes = [0u8; 60];
    for n in 0..60 {
        bytes[n] = sum_byte(w, n);
    }
    bytes
}
