// An 8-bit picture by the cells of a short list, straight from the source: all cells for 64 points at a time.
// In the middle of the picture every cell stands at the same distance from its point, across the ends of rows
// too; what that makes of the points near an end is written over, column by column. The rows above and below
// the middle are made row by row.
#![tactic(auto)]

ghost use Rattle.std.specs.Prelude.{◌≡◌, cond, ℕ, ◌+◌, ◌-◌, ◌*◌, ◌^◌, ◌≤◌, ◌<◌, length, get_or, set};
ghost use Rattle.picture.specs.Frame.{most_pings, most_bins, frame};
ghost use Rattle.picture.specs.Points.{value_at};
ghost use Rattle.picture.specs.Bytes.{bytes_of};
ghost use Rattle.element.specs.Record.{shape_by};
ghost use Rattle.morphology.specs.Operations.{flat};
ghost use Rattle.rows.specs.Steps.Ready.{Ready};
ghost use Rattle.rows.specs.Steps.Ways.{swept_by};
ghost use Rattle.cellwise.specs.Steps.Spots.{side_of, near_of, Picked};
ghost use Rattle.cellwise.specs.Steps.Made.{back_of, up_of, Places, Middle, Across, Down};

use element::{Outline, RowWord};
use picture::{Bin, Depth};

// A list of cells has room for so many.
const FEW: usize = 16;

// How many of n columns, or rows, the cell of column c sees before its own:
// erosion counts from the left, dilation, which goes the other way, from the right.
pub fn side(grows: bool, n: usize, c: usize) -> usize
    requires { c < n }
    ensures { (result ≡ side_of grows n c) × (result < n) }
{
    if grows { n - 1 - c } else { c }
}

// A place as a number that counts.
fn wide(p: u32) -> usize
    ensures { result ≡ p }
{
    p as usize
}

// One place more, seen from column x in place of column `back`, if it then lies in the row of w columns.
fn keep(into: &mut [u32], n: usize, w: usize, back: usize, x: usize, p: usize) -> usize
    requires into_len { (length into.old ≡ 16) × ((n < 16) × (1 ≤ w)) }
    requires x_lt_w { (x < w) × (p + w < 2 ^ 32) }
    ensures number { result ≡ cond (near_of w back x p) (n + 1) n }
    ensures list { into.new
        ≡ cond (near_of w back x p) (set into.old n (p + x - back)) into.old }
{
    let d = p % w + x;
    if d < back {
        return n;
    }
    if w <= d - back {
        return n;
    }
    into[n] = (p + x - back) as u32;
    n + 1
}

// The places that lie in the row of w columns, seen from column x in place of column `back`.
fn pick(into: &mut [u32], at: &[u32], w: usize, back: usize, x: usize) -> usize
    requires into_len { (length into.old ≡ 16) × (length at.now ≤ 16) }
    requires le_w { (1 ≤ w) × (x < w) }
    requires by_index { (j : ℕ) → j < length at.now → get_or at.now j 0 + w < 2 ^ 32 }
    ensures { Picked w back x at.now (length at.now) result into.new }
{
    let mut n = 0;
    for j in 0..at.len() {
        n = keep(into, n, w, back, x, wide(at[j]));
    }
    n
}

// The first column of the middle.
fn back_of(grows: bool, o: Outline) -> usize
    requires { o.origin.ping.0 < o.w }
    ensures { (result ≡ back_of grows o) × (result < o.w) }
{
    let origin = o.origin;
    let column = origin.ping;
    side(grows, o.w, column.0 as usize)
}

// The first row of the middle.
fn up_of(grows: bool, o: Outline) -> usize
    requires { o.origin.bin.0 < o.h }
    ensures { (result ≡ up_of grows o) × (result < o.h) }
{
    let origin = o.origin;
    let row = origin.bin;
    side(grows, o.h, row.0 as usize)
}

// Column x, in the rows of the middle, by the cells that it sees in the frame.
fn column(
    grows: bool,
    s: &[u8],
    t: &mut [u8],
    w: usize,
    h: usize,
    o: Outline,
    words: &[RowWord],
    at: &[u32],
    x: usize,
)
    requires ready { Ready Depth.EightBit (length s.now) (length words.now) w h o }
    requires middle { Middle w h o }
    requires x_lt_w { (x < w) × Places grows w o words.now at.now }
    requires across { Across grows s.now w h o words.now x t.old }
    ensures { Across grows s.now w h o words.now (x + 1) t.new }
{
    let mut near = [0u32; FEW];
    let back = back_of(grows, o);
    let k = pick(&mut near, at, w, back, x);
    let up = up_of(grows, o);
    gathers::step(grows, s, t, w, up * w + x, h + 1 - o.h, &near[..k]);
}

// The columns from `from` to `to`.
fn columns(
    grows: bool,
    s: &[u8],
    t: &mut [u8],
    w: usize,
    h: usize,
    o: Outline,
    words: &[RowWord],
    at: &[u32],
    from: usize,
    to: usize,
)
    requires ready { Ready Depth.EightBit (length s.now) (length words.now) w h o }
    requires middle { Middle w h o }
    requires from_le_to { (from ≤ to) × ((to ≤ w) × Places grows w o words.now at.now) }
    requires across { Across grows s.now w h o words.now from t.old }
    ensures { Across grows s.now w h o words.now to t.new }
{
    for x in from..to {
        column(grows, s, t, w, h, o, words, at, x);
    }
}

// The rows of the middle: n of its bytes at once, and then the columns beside it.
fn middle(
    grows: bool,
    s: &[u8],
    t: &mut [u8],
    w: usize,
    h: usize,
    o: Outline,
    words: &[RowWord],
    at: &[u32],
    n: usize,
)
    requires ready { Ready Depth.EightBit (length s.now) (length words.now) w h o }
    requires middle { Middle w h o }
    requires at_nonzero { (0 < length at.now) × ((64 ≤ n) × (n ≡ (h + 1 - o.h) * w + 1 - o.w)) }
    requires places { Places grows w o words.now at.now }
    requires t_len { length t.old ≡ h * w }
    ensures { Across grows s.now w h o words.now w t.new }
{
    let back = back_of(grows, o);
    let up = up_of(grows, o);
    gathers::lay(grows, s, t, up * w + back, n, at);
    columns(grows, s, t, w, h, o, words, at, 0, back);
    columns(grows, s, t, w, h, o, words, at, back + (w + 1 - o.w), w);
}

// The rows from `from` to `to`, one by one.
fn fill_rows(
    grows: bool,
    s: &[u8],
    t: &mut [u8],
    w: usize,
    h: usize,
    o: Outline,
    words: &[RowWord],
    first: usize,
    last: usize,
    from: usize,
    to: usize,
)
    requires ready { Ready Depth.EightBit (length s.now) (length words.now) w h o }
    requires from_le_to { (from ≤ to) × (to ≤ h) }
    requires down { Down grows s.now w h o words.now first last from t.old }
    ensures { Down grows s.now w h o words.now first last to t.new }
{
    for y in from..to {
        let a = y * w;
        let z = a + w;
        let none = &s[..0];
        byterow::make_row(grows, &mut t[a..z], s, w, h, Bin(y as u16), o, words, none);
    }
}

// The whole picture, its middle at once.
fn sweep_middle(
    grows: bool,
    s: &[u8],
    t: &mut [u8],
    w: usize,
    h: usize,
    o: Outline,
    words: &[RowWord],
    at: &[u32],
    n: usize,
)
    requires ready { Ready Depth.EightBit (length s.now) (length words.now) w h o }
    requires middle { Middle w h o }
    requires at_nonzero { (0 < length at.now) × ((64 ≤ n) × (n ≡ (h + 1 - o.h) * w + 1 - o.w)) }
    requires places { Places grows w o words.now at.now }
    requires t_len { length t.old ≡ h * w }
    ensures { t.new
        ≡ bytes_of Depth.EightBit
        (swept_by grows flat 255 (frame w h) (shape_by o words.now)
        (value_at Depth.EightBit s.now w)) w h }
{
    middle(grows, s, t, w, h, o, words, at, n);
    let up = up_of(grows, o);
    let low = up + (h + 1 - o.h);
    fill_rows(grows, s, t, w, h, o, words, up, low, 0, up);
    fill_rows(grows, s, t, w, h, o, words, up, low, low, h);
}

// The whole picture row by row, where it has no middle to speak of.
fn sweep_rows(
    grows: bool,
    s: &[u8],
    t: &mut [u8],
    w: usize,
    h: usize,
    o: Outline,
    words: &[RowWord],
)
    requires ready { Ready Depth.EightBit (length s.now) (length words.now) w h o }
    requires t_len { length t.old ≡ h * w }
    ensures { t.new
        ≡ bytes_of Depth.EightBit
        (swept_by grows flat 255 (frame w h) (shape_by o words.now)
        (value_at Depth.EightBit s.now w)) w h }
{
    fill_rows(grows, s, t, w, h, o, words, 0, 0, 0, h);
}

// How many bytes lie from the first of the middle to its last; 0 where it is not worth it.
fn middle_bytes(w: usize, h: usize, o: Outline) -> usize
    requires { (1 ≤ w) × ((w ≤ most_pings) × (h ≤ most_bins)) }
    ensures { 0 < result → Middle w h o × ((64 ≤ result) × (result ≡ (h + 1 - o.h) * w + 1 - o.w)) }
{
    if h < o.h {
        return 0;
    }
    if w < o.w {
        return 0;
    }
    // a long element of few rows has more columns to write over than its middle saves
    if 16 * o.h < o.w {
        return 0;
    }
    let n = (h + 1 - o.h) * w + 1 - o.w;
    if n < 64 {
        return 0;
    }
    n
}

// The erosion, or the dilation, of the 8-bit picture in s by the set cells of an element,
// whose places are listed, into a target of just its size.
pub fn sweep_whole(
    grows: bool,
    s: &[u8],
    t: &mut [u8],
    w: usize,
    h: usize,
    o: Outline,
    words: &[RowWord],
    at: &[u32],
)
    requires ready { Ready Depth.EightBit (length s.now) (length words.now) w h o }
    requires places { Places grows w o words.now at.now }
    requires t_len { length t.old ≡ h * w }
    ensures { t.new
        ≡ bytes_of Depth.EightBit
        (swept_by grows flat 255 (frame w h) (shape_by o words.now)
        (value_at Depth.EightBit s.now w)) w h }
{
    let n = middle_bytes(w, h, o);
    if 0 < n {
        if 0 < at.len() {
            sweep_middle(grows, s, t, w, h, o, words, at, n);
            return;
        }
    }
    sweep_rows(grows, s, t, w, h, o, words);
}
