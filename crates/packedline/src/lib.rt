// One packed row by one row of an element, joined into a packed row, eight points at a time: none is
// unpacked.
#![tactic(auto)]

ghost use Rattle.std.specs.Prelude.{◌≡◌, ◌+◌, ◌-◌, ◌/◌, ◌%◌, ◌^◌, ◌≤◌, ◌<◌, length, get_or, set, replicate};
ghost use Rattle.std.specs.Int.Count.{count_leading_zeros, ones};
ghost use Rattle.blocks.specs.Steps.Laid.{laid};
ghost use Rattle.rows.specs.Steps.Fold.{start_by};
ghost use Rattle.packedline.specs.Steps.Padded.{faced_byte, spare_of, blotted_by, padded_of};
ghost use Rattle.packedline.specs.Steps.Cells.{place_of, end_cell, run_word, window_of, level_of, RunOf};
ghost use Rattle.packedline.specs.Steps.Cells.{CellsOf, Covers};
ghost use Rattle.packedline.specs.Steps.Line.{line_of, LineFit};

// The cells of a row word.
pub const CELLS: usize = 64;

// The bytes of a padded row before the row: as many points as a row word has cells.
const SIDE: usize = 8;

// Three blocks, and the two bytes that the last one looks ahead: the longest row with both its sides.
const ROOM: usize = 194;

// ---- the padded row

// Eight points as they are or turned over.
fn faced(over: bool, v: u8) -> u8
    ensures { result ≡ faced_byte over v }
{
    if over { !v } else { v }
}

// The bytes of s, as they are or turned over, laid over those of b from the place `at` on.
pub fn copy_over(over: bool, b: &mut [u8], at: usize, s: &[u8])
    requires { at + length s.now ≤ length b.old }
    ensures { b.new ≡ laid at (length s.now)
        (λ i. faced_byte over (get_or s.now i 0)) b.old }
{
    for i in 0..s.len() {
        b[at + i] = faced(over, s[i]);
    }
}

// The padding of a packed row of w points.
fn spare(w: usize) -> u8
    ensures { result ≡ spare_of (w % 8) }
{
    let d = w % 8;
    if d == 0 { 0 } else { 255u8 >> d }
}

// The digits m of a byte, as points beyond the frame: 0 for a dilation, 1 for an erosion.
fn blotted(grows: bool, v: u8, m: u8) -> u8
    ensures { result ≡ blotted_by grows v m }
{
    if grows { v & !m } else { v | m }
}

// The padding in the last byte of a row of w points, as beyond the frame.
pub fn blot(grows: bool, b: &mut [u8], at: usize, w: usize)
    requires { at < length b.old }
    ensures { b.new ≡ set b.old at
        (blotted_by grows (get_or b.old at 0) (spare_of (w % 8))) }
{
    b[at] = blotted(grows, b[at], spare(w));
}

// ---- which windows make up a row of an element

// Where the cell of column c falls, seen from place 0.
pub fn cell_place(grows: bool, o: usize, c: usize) -> usize
    requires { (o < 64) × (c < 64) }
    ensures { (result ≡ place_of grows o c) × (result < 128) }
{
    if grows { 64 + o - c } else { 64 + c - o }
}

// The windows, of 1, 4 or 16 points, of which at most four make up a run of `wide`.
fn window(wide: usize) -> usize
    ensures { result ≡ window_of wide }
{
    if wide <= 4 {
        return 1;
    }
    if wide <= 16 { 4 } else { 16 }
}

// `wide` cells from the first on, as a row word.
pub fn run_word(wide: usize) -> u64
    ensures { result ≡ run_word wide }
{
    if 64 <= wide {
        return u64::MAX;
    }
    u64::MAX - (u64::MAX >> wide)
}

// A run of `wide` cells, the first of which falls on place `from`:
// windows of n side by side, the last at its end. Their places go to `at`; it gives how many they are.
fn run_places(at: &mut [u8], n: usize, wide: usize, from: usize) -> usize
    requires n_nonzero { (0 < n) × ((n ≤ wide) × ((wide ≤ 64) × (from < 128))) }
    requires at_len { length at.old ≡ 64 }
    ensures { RunOf n wide from result at.new }
{
    let mut count = 0;
    let mut c = 0;
    // a range that steps by n would leave the windows to be counted all the same
    while c + n < wide {
        at[count] = (from + c) as u8;
        count += 1;
        c += n;
    }
    at[count] = (from + wide - n) as u8;
    count + 1
}

// A cell's bit in a row word.
pub fn cell_bit(c: usize) -> u64
    requires { c < 64 }
    ensures { result ≡ 2 ^ (63 - c) }
{
    9223372036854775808 >> c
}

// The column of the first set cell.
pub fn first_cell(word: u64) -> usize
    requires { 0 < word }
    ensures { (result < 64)
        × ((2 ^ (63 - result) ≤ word) × ((word < 2 ^ (64 - result))
        × (result ≡ count_leading_zeros 64 word))) }
{
    u64::leading_zeros(word) as usize
}

// The set cells: their places go to `at`; it gives how many they are.
fn cell_places(at: &mut [u8], grows: bool, word: u64, o: usize) -> usize
    requires { (o < 64) × (length at.old ≡ 64) }
    ensures { CellsOf grows word o result at.new }
{
    let mut m = word;
    let mut count = 0;
    // the step depends on where the next cell is found
    while m != 0 {
        let c = first_cell(m);
        at[count] = cell_place(grows, o, c) as u8;
        m = m - cell_bit(c);
        count += 1;
    }
    count
}

// How many cells are set.
pub fn cell_count(word: u64) -> usize
    ensures { (result ≡ ones word) × (result ≤ 64) }
{
    u64::count_ones(word) as usize
}

// The windows that a row word wants: a run's, or 1 for single cells; 0 where there is no cell.
pub fn level_of(word: u64) -> usize
    ensures { result ≡ level_of word }
{
    if word == 0 {
        return 0;
    }
    let c = first_cell(word);
    let wide = cell_count(word);
    if run_word(wide) >> c == word {
        return window(wide);
    }
    1
}

// The cell that falls on the first place of a run: its first, or for dilation its last.
pub fn end_cell(grows: bool, c: usize, wide: usize) -> usize
    requires { (0 < wide) × (c + wide ≤ 64) }
    ensures { (result ≡ end_cell grows c wide) × (result < 64) }
{
    if grows { c + wide - 1 } else { c }
}

// Where windows of n points make up exactly the places of the set cells.
fn places_of(at: &mut [u8], grows: bool, word: u64, o: usize, n: usize) -> usize
    requires o_bound { (o < 64) × ((0 < n) × (n ≡ level_of word)) }
    requires at_len { length at.old ≡ 64 }
    ensures { Covers grows word o n result at.new }
{
    if n == 1 {
        return cell_places(at, grows, word, o);
    }
    let c = first_cell(word);
    let wide = cell_count(word);
    run_places(at, n, wide, cell_place(grows, o, end_cell(grows, c, wide)))
}

// ---- one row

// The padded row, in a room that counts as beyond the frame.
fn pad(over: bool, grows: bool, b: &mut [u8], s: &[u8], w: usize)
    requires in_bounds { (1 ≤ length s.now) × ((length s.now ≤ 128)
        × (b.old ≡ replicate 194 (start_by grows 255))) }
    requires b_len { length b.old ≡ 194 }
    ensures { b.new ≡ padded_of over grows s.now w }
{
    let n = s.len();
    copy_over(over, b, SIDE, s);
    blot(grows, b, SIDE + n - 1, w);
}

// One row of the source, as it is or turned over, through one row word into the row t:
// each point x of t, those of its padding too, joined with the points of the source at x + (c - o),
// or for dilation x - (c - o), over the set cells c whose places lie in the row.
// What stands in the source's padding never counts.
pub fn line(over: bool, grows: bool, t: &mut [u8], s: &[u8], w: usize, word: u64, o: usize)
    requires { LineFit (length t.old) (length s.now) w o }
    ensures { t.new ≡ line_of over grows t.old s.now w word o }
{
    let n = level_of(word);
    if n == 0 {
        return;
    }
    let k = t.len();
    let mut b = [blocks::beyond(grows); ROOM];
    pad(over, grows, &mut b, s, w);
    // as many blocks as the last place reaches: the row, and 17 bytes more
    windows::windows(grows, &mut b, (k + 81) / 64, n);
    let mut at = [0u8; CELLS];
    let m = places_of(&mut at, grows, word, o, n);
    windows::join_row(grows, t, &mut b, &at[..m]);
}
