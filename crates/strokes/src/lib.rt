// Which windows make up a row of an element: single cells and pairs of neighbours, or the windows of a run.
// Their places are in two rooms of 1,232 places, one after the other, of bytes or of packed points.
#![tactic(auto)]

ghost use Rattle.std.specs.Prelude.{◌≡◌, false, ℕ, ◌+◌, ◌≤◌, ◌<◌, length};
ghost use Rattle.packedline.specs.Steps.Cells.{level_of, RunOf};
ghost use Rattle.strokes.specs.Steps.Strokes.{kind_of, lacks_kind, next_of, spot_of, base_of, Strokes};
ghost use Rattle.strokes.specs.Steps.Places.{cells_from, run_from, places_from};

use element::{Outline, RowWord};

// Where the second room begins: 64 places beyond the frame, the longest row, 64 beyond the frame,
// and what the last block looks ahead.
pub const ROOM: usize = 1232;

// The next cell's digit, where the rest has it; `half` is half of the first cell's.
fn next_cell(rest: u64, half: u64) -> u64
    ensures { result ≡ next_of rest half }
{
    if half == 0 {
        return 0;
    }
    if rest < half { 0 } else { half }
}

// Where a cell stands that falls on place p: alone in the first room, with the next one in the second.
fn spot(grows: bool, p: usize, next: u64) -> usize
    requires { (0 < p) × (p < 128) }
    ensures { (result ≡ spot_of grows p next) × (result < 1360) }
{
    if next == 0 {
        return p;
    }
    if grows { ROOM + p - 1 } else { ROOM + p }
}

// The set cells, two neighbours at a time where there are two; it gives how many places they take.
fn cell_places(at: &mut [u16], grows: bool, word: u64, o: usize) -> usize
    requires { (o < 64) × (length at.old ≡ 64) }
    ensures cover { Strokes grows word o 0 result at.new }
    ensures found { (result, at.new) ≡ cells_from grows o 64 word 0 at.old }
{
    let mut m = word;
    let mut count = 0;
    // One cell or two are taken out of the word at a time: std has no iterator of them, so a `while`.
    while m != 0 {
        let c = packedline::first_cell(m);
        let b = packedline::cell_bit(c);
        let rest = m - b;
        let next = next_cell(rest, b / 2);
        let p = packedline::cell_place(grows, o, c);
        at[count] = spot(grows, p, next) as u16;
        m = rest - next;
        count += 1;
    }
    count
}

// A run of `wide` cells, the first of which falls on place `from`:
// windows of n side by side, the last at its end.
fn run_places(at: &mut [u16], n: usize, wide: usize, from: usize) -> usize
    requires n_nonzero { (0 < n) × ((n ≤ wide) × ((wide ≤ 64) × (from < 1360))) }
    requires at_len { length at.old ≡ 64 }
    ensures cover { RunOf n wide from result at.new }
    ensures found { (result, at.new) ≡ run_from n wide from 64 0 0 at.old }
{
    let mut count = 0;
    let mut c = 0;
    while c + n < wide {
        at[count] = (from + c) as u16;
        count += 1;
        c += n;
    }
    at[count] = (from + wide - n) as u16;
    count + 1
}

// The room in which windows of n stand.
fn base_of(n: usize) -> usize
    ensures { (result ≡ base_of n) × (result ≤ 1232) }
{
    if n == 16 { ROOM } else { 0 }
}

// Where windows make up exactly the places of the set cells of a word that wants windows of n.
pub fn places_of(at: &mut [u16], grows: bool, word: u64, o: usize, n: usize) -> usize
    requires o_bound { (o < 64) × (n ≡ level_of word) }
    requires at_len { length at.old ≡ 64 }
    ensures cover { Strokes grows word o (kind_of n) result at.new }
    ensures found { (result, at.new) ≡ places_from grows word o n at.old }
{
    if n <= 1 {
        return cell_places(at, grows, word, o);
    }
    let c = packedline::first_cell(word);
    let wide = packedline::cell_count(word);
    let p = packedline::cell_place(grows, o, packedline::end_cell(grows, c, wide));
    run_places(at, n, wide, base_of(n) + p)
}

// ---- rows of two kinds

// Single cells are of kind 0, longer runs of kind 1.
pub fn kind_of(level: usize) -> usize
    ensures { result ≡ kind_of level }
{
    if level <= 1 { 0 } else { 1 }
}

// Whether no row of the element is of kind k.
pub fn lacks_kind(words: &[RowWord], o: Outline, k: usize) -> bool
    requires { o.h ≤ length words.now }
    ensures { result ≡ lacks_kind o words.now k }
{
    for r in 0..o.h {
        let n = packedline::level_of(words[r] & packedline::run_word(o.w));
        if kind_of(n) == k {
            return false;
        }
    }
    true
}
