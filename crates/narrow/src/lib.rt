// One packed row of a one-bit result, for pictures of at most 128 pings: a row is held in words, and no
// block is made. An erosion is the dilation of what is turned over, turned over.
#![tactic(auto)]

ghost use Rattle.std.specs.Prelude.{◌≡◌, cond, ℕ, ◌+◌, ◌-◌, ◌*◌, ◌≤◌, ◌<◌, max, ltb, length};
ghost use Rattle.picture.specs.Frame.{row_bytes, most_bins};
ghost use Rattle.packedline.specs.Steps.Line.{faced_point, pack_of};
ghost use Rattle.rows.specs.Steps.Ready.{Ready};
ghost use Rattle.bitrow.specs.Steps.Row.{bit_row};
ghost use Rattle.bitrow.specs.Steps.Added.{masked_of};
ghost use Rattle.narrow.specs.Steps.Strip.{place_at, row_place, OffWhere, Clear, Unmet};
ghost use Rattle.narrow.specs.Steps.Row.{turned_by, SameRows, first_row, end_row, NoRow, RowUnmet};

use bitrow::Task;
use element::{Outline, RowWord};
use picture::{Bin, Depth};

// The longest row that words hold.
pub const MOST: usize = 128;

// A padded row: 64 places beyond the frame, then the row. The first place is the highest bit of `a`.
#[derive(Clone, Copy)]
struct Strip {
    a: u64,
    b: u64,
    c: u64,
}

// ---- a row of a picture

// A row of w points from a place on, padded.
fn row_at(over: bool, s: &[u8], at: usize, w: usize) -> Strip
    requires { (at ≤ 65536) × (w ≤ 128) }
    ensures { (p : ℕ) → place_at result p ≡ row_place over s.now at w p }
{
    let b = words::points_at(over, s, at, w);
    if w <= 64 {
        return Strip { a: 0, b, c: 0 };
    }
    let c = words::points_at(over, s, at + 8, w - 64);
    Strip { a: 0, b, c }
}

// ---- moved, joined, widened

// The places from d on.
fn moved(x: Strip, d: usize) -> Strip
    requires { d < 64 }
    ensures { (p : ℕ) → place_at result p ≡ place_at x (p + d) }
{
    Strip {
        a: words::slid(x.a, x.b, d),
        b: words::slid(x.b, x.c, d),
        c: words::slid(x.c, 0, d),
    }
}

// The same, of places further on.
fn moved_far(x: Strip, d: usize) -> Strip
    requires { d < 128 }
    ensures { (p : ℕ) → place_at result p ≡ place_at x (p + d) }
{
    if d < 64 {
        return moved(x, d);
    }
    moved(
        Strip {
            a: x.b,
            b: x.c,
            c: 0,
        },
        d - 64,
    )
}

fn joined(x: Strip, y: Strip) -> Strip
    ensures { (p : ℕ) → place_at result p ≡ max (place_at x p) (place_at y p) }
{
    Strip {
        a: x.a | y.a,
        b: x.b | y.b,
        c: x.c | y.c,
    }
}

// Windows of n points: a point where one of n is, from there on. Each turn makes them twice as wide.
fn windows(x: Strip, n: usize) -> Strip
    requires { (1 ≤ n) × (n ≤ 64) }
    ensures { OffWhere result (Clear x n) }
{
    if n == 1 {
        return x;
    }
    let mut v = x;
    let mut m = 1;
    // m doubles, which no range counts
    while m + m <= n {
        v = joined(v, moved(v, m));
        m = m + m;
    }
    joined(v, moved(v, n - m))
}

// ---- through a row of an element

// The padded row x through one row word, joined into the row v: run after run of cells.
fn spread(v: Strip, x: Strip, grows: bool, word: u64, o: usize) -> Strip
    requires { o < 64 }
    ensures { OffWhere result (λ p. (place_at v p ≡ 0) × Unmet x grows word o 64 p) }
{
    let mut r = v;
    let mut c = words::next_cell(word, 0);
    // the step depends on where the next run is found
    while c < 64 {
        let e = words::next_cell(!word, c);
        let p = packedline::cell_place(grows, o, packedline::end_cell(grows, c, e - c));
        r = joined(r, moved_far(windows(x, e - c), p));
        c = words::next_cell(word, e);
    }
    r
}

// ---- from the rows of the source

// Rows of the source, n bytes each, joined: those from `from` on, before `end`.
fn rows_of(over: bool, s: &[u8], w: usize, n: usize, from: usize, end: usize) -> Strip
    requires { (n ≤ 16) × ((end ≤ most_bins) × ((from ≤ end) × (w ≤ 128))) }
    ensures { OffWhere result (NoRow over s.now w n from end) }
{
    let mut v = Strip { a: 0, b: 0, c: 0 };
    for i in from..end {
        v = joined(v, row_at(over, s, i * n, w));
    }
    v
}

// The end of the rows of an element that are as row r.
fn same_end(words: &[RowWord], r: usize, h: usize) -> usize
    requires { (r < h) × (h ≤ length words.now) }
    ensures { SameRows words.now r h result }
{
    for e in r + 1..h {
        if words[e] != words[r] {
            return e;
        }
    }
    h
}

// The first source row that rows r to e - 1 of an element lead to from row y.
fn first_row(grows: bool, y: usize, o: usize, r: usize, e: usize) -> usize
    requires { (y < 65536) × ((o < 65536) × (r < 65536)) }
    ensures { result ≡ first_row grows y o r e }
{
    if grows {
        return (y + o + 1).saturating_sub(e);
    }
    (y + r).saturating_sub(o)
}

// The row past the last of them, within the frame.
fn end_row(grows: bool, h: usize, y: usize, o: usize, r: usize, e: usize) -> usize
    requires { (y < 65536) × ((o < 65536) × (e < 65536)) }
    ensures { result ≡ end_row grows h y o r e }
{
    if grows {
        return (y + o + 1).saturating_sub(r).min(h);
    }
    (y + e).saturating_sub(o).min(h)
}

// Whether the source is turned over.
fn turned(grows: bool, over: bool) -> bool
    ensures { result ≡ turned_by grows over }
{
    if grows { over } else { !over }
}

// Rows r to e - 1 of the element, all with one row word, joined into v from the source rows that they lead
// to.
fn add_rows(
    v: Strip,
    k: Task,
    s: &[u8],
    w: usize,
    n: usize,
    h: usize,
    y: Bin,
    o: Outline,
    word: RowWord,
    r: usize,
    e: usize,
) -> Strip
    requires n_bound { (n ≤ 16) × ((h ≤ most_bins) × (w ≤ 128)) }
    requires r_lt_e { (r < e) × ((e ≤ 64) × (o.origin.ping.0 < 64)) }
    ensures { OffWhere result (λ p. (place_at v p ≡ 0) × ((i : ℕ) → r ≤ i → i < e
        → RowUnmet k.grows (turned_by k.grows k.over) s.now w n h y.0
        o.origin.ping.0 o.origin.bin.0 (masked_of word o.w) i p)) }
{
    let origin = o.origin;
    let column = origin.ping;
    let bin = origin.bin;
    let a = first_row(k.grows, y.0 as usize, bin.0 as usize, r, e);
    let z = end_row(k.grows, h, y.0 as usize, bin.0 as usize, r, e);
    if z <= a {
        return v;
    }
    let x = rows_of(turned(k.grows, k.over), s, w, n, a, z);
    spread(
        v,
        x,
        k.grows,
        word & packedline::run_word(o.w),
        column.0 as usize,
    )
}

// ---- the row

// The first w points of x, as they are or turned over, packed.
fn put(t: &mut [u8], x: Strip, over: bool, w: usize)
    requires { (w ≤ 128) × (length t.old ≡ row_bytes Depth.OneBit w) }
    ensures { t.new ≡ pack_of (λ p. cond (ltb p w) (faced_point over (place_at x p)) 0)
        (length t.old) }
{
    let n = t.len();
    let m = n.min(8);
    words::put_points(t, 0, m, over, x.a, w);
    words::put_points(t, m, n, over, x.b, w.saturating_sub(64));
}

// Row y of the erosion, or the dilation, of the one-bit picture in s, as it is or turned over.
// What stands in the padding of s never counts, and the padding of t is 0.
pub fn make_row(
    k: Task,
    t: &mut [u8],
    s: &[u8],
    w: usize,
    h: usize,
    y: Bin,
    o: Outline,
    words: &[RowWord],
)
    requires ready { Ready Depth.OneBit (length s.now) (length words.now) w h o }
    requires t_len { (length t.old ≡ row_bytes Depth.OneBit w) × ((y.0 < h) × (w ≤ 128)) }
    ensures { t.new ≡ bit_row k s.now w h o words.now y.0 }
{
    let n = t.len();
    let mut v = Strip { a: 0, b: 0, c: 0 };
    let mut r = 0;
    // the step depends on how many rows are as row r
    while r < o.h {
        let e = same_end(words, r, o.h);
        v = add_rows(v, k, s, w, n, h, y, o, words[r], r, e);
        r = e;
    }
    put(t, v, !k.grows, w);
}

// The same at any width: by words where they hold a row, else by blocks.
pub fn any_row(
    k: Task,
    t: &mut [u8],
    s: &[u8],
    w: usize,
    h: usize,
    y: Bin,
    o: Outline,
    words: &[RowWord],
)
    requires ready { Ready Depth.OneBit (length s.now) (length words.now) w h o }
    requires t_len { (length t.old ≡ row_bytes Depth.OneBit w) × (y.0 < h) }
    ensures { t.new ≡ bit_row k s.now w h o words.now y.0 }
{
    if w <= MOST {
        make_row(k, t, &s[..], w, h, y, o, &words[..]);
        return;
    }
    bitrow::make_row(k, t, &s[..], w, h, y, o, &words[..]);
}
