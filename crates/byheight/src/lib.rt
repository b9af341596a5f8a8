// An 8-bit picture by a weighted element, some rows of the element at a time, whose cells are listed once.
// By them it goes a source row at a time: the row stands between what counts beyond the frame, and all cells
// of an element row are joined from it into the row of the result that sees it.
// The target's own rows gather them, in any order.
#![tactic(auto)]

ghost use Rattle.std.specs.Prelude.{◌≡◌, true, ◌+◌, ◌*◌, ◌/◌, ◌≤◌, ◌<◌, length, get_or, replicate, take};
ghost use Rattle.std.specs.Prelude.{drop};
ghost use Rattle.element.specs.Descriptor.{most_cells};
ghost use Rattle.picture.specs.Frame.{most_pings, Holds};
ghost use Rattle.picture.specs.Bytes.{written, bytes_of};
ghost use Rattle.rows.specs.Steps.Ready.{Ready};
ghost use Rattle.rows.specs.Steps.Fold.{start_by};
ghost use Rattle.bitrow.specs.Steps.Added.{row_in};
ghost use Rattle.byterow.specs.Steps.Row.{swept_bytes};
ghost use Rattle.weighblocks.specs.Steps.Cells.{weighed_row, Near2};
ghost use Rattle.heightsigns.specs.Steps.Padded.{Padded};
ghost use Rattle.freeblocks.specs.Steps.Plain.{Sure, Under};
ghost use Rattle.byheight.specs.Steps.Part.{Part, Marked};
ghost use Rattle.byheight.specs.Steps.Listed.{Listed, Fits};

use element::{Outline, RowWord};
use picture::{Bin, Depth};

// So many numbers of cells of either side are held at a time, and counts of so many rows.
const HELD: usize = 256;

const ROWS: usize = packedline::CELLS;
// So many cells that raise are many.
const MANY: usize = 5;

// The n rows of the element from `from` on: the cells of row from + i into both lists, from place i * o.w on,
// and how many they are.
fn list_rows(
    rising: &mut [u16],
    others: &mut [u16],
    ups: &mut [u8],
    downs: &mut [u8],
    grows: bool,
    o: Outline,
    words: &[RowWord],
    hs: &[u8],
    from: usize,
    n: usize,
)
    requires fits { Fits (length words.now) o from n }
    requires listed { Listed grows o words.now hs.now from 0 rising.old others.old ups.old
        downs.old }
    ensures { Listed grows o words.now hs.now from n rising.new
        others.new ups.new downs.new }
{
    let origin = o.origin;
    let column = origin.ping;
    let c = column.0 as usize;
    for i in 0..n {
        let r = from + i;
        let a = i * o.w;
        let z = a + o.w;
        let k = heightsigns::cells_both(
            &mut rising[a..z],
            &mut others[a..z],
            grows,
            words[r],
            o.w,
            c,
            hs,
            r * o.w,
        );
        ups[i] = k.rising as u8;
        downs[i] = k.others as u8;
    }
}

// Row v of a picture of w columns.
fn row_of(s: &[u8], w: usize, v: Bin) -> &[u8]
    requires { v.0 * w + w ≤ length s.now }
    ensures { result.now ≡ row_in w s.now v.0 }
{
    let a = (v.0 as usize) * w;
    let z = a + w;
    &s[a..z]
}

// A row of values into b, between what counts beyond the frame.
fn fill(grows: bool, b: &mut [u8], s: &[u8])
    requires s_len_bound { length s.now ≤ most_pings }
    requires b_value { b.old ≡ replicate 1152 (start_by grows 255) }
    ensures { Padded grows s.now b.new }
{
    packedline::copy_over(false, b, 64, s);
}

// Whether a row of two blocks or more has few values at the end that has to be held, by one column in 32:
// where it has many, joining without what holds them is tried in vain.
fn few_ends(grows: bool, s: &[u8]) -> bool
    requires { length s.now ≤ most_pings }
{
    if s.len() < 128 {
        return false;
    }
    let end = blocks::beyond(grows);
    let mut n = 0;
    let mut i = 0;
    while i < s.len() {
        n += (s[i] == end) as usize;
        i += 32;
    }
    8 * n <= s.len() / 32
}

// 1 where a row is sure, after what n cells that raise found was joined into it.
// Few of them seldom bring all of it so far that a look is worth it.
fn mark_of(grows: bool, sure: bool, n: usize, t: &[u8]) -> u8
    requires { sure ≡ true → Sure grows (length t.now / 128) t.now }
    ensures { result ≡ 1 → Sure grows (length t.now / 128) t.now }
{
    if sure {
        return 1;
    }
    if n < MANY {
        return 0;
    }
    if freeblocks::is_sure(grows, t) { 1 } else { 0 }
}

// What the cells of an element row find in the row of values b, joined into the row t, which is sure where
// its mark is 1; it gives the new mark.
fn join_marked(
    grows: bool,
    bold: bool,
    mark: u8,
    t: &mut [u8],
    b: &[u8],
    rising: &[u16],
    others: &[u16],
) -> u8
    requires t_len_bound { length t.old ≤ most_pings }
    requires b_len { (length b.now ≡ 1152) × Near2 rising.now others.now }
    requires sure { (mark ≡ 1 → Sure grows (length t.old / 128) t.old) × Under rising.now 128 }
    ensures bytes { t.new
        ≡ weighed_row grows b.now rising.now others.now t.old }
    ensures mark { result ≡ 1 → Sure grows (length t.new / 128) t.new }
{
    let sure = mark == 1;
    // blocks go without what holds the ends where the row has few of them, or none can show
    let free = bold | sure | (rising.len() == 0);
    freeblocks::join_row(grows, free, sure, t, b, rising, others);
    mark_of(grows, sure, rising.len(), &t[..])
}

// One side of row i of those that are listed: so many cells as is counted, from place p on.
fn cells_of<'a>(cells: &'a [u16], counts: &[u8], p: usize, i: usize) -> &'a [u16]
    requires { (i < length counts.now) × (p + get_or counts.now i 0 ≤ length cells.now) }
    ensures { result.now ≡ take (get_or counts.now i 0) (drop p cells.now) }
{
    let z = p + (counts[i] as usize);
    &cells[p..z]
}

// Row from + i of the element from source row v, which stands in b:
// joined into the row of the result that sees row v by it, if the frame has that row.
// The source, the words and the heights are only what is said of them.
fn add_row(
    grows: bool,
    bold: bool,
    t: &mut [u8],
    marks: &mut [u8],
    w: usize,
    h: usize,
    b: &[u8],
    v: Bin,
    o: Outline,
    rising: &[u16],
    others: &[u16],
    ups: &[u8],
    downs: &[u8],
    from: usize,
    n: usize,
    i: usize,
    words: &[RowWord],
    hs: &[u8],
    s: &[u8],
)
    requires ready { Ready Depth.EightBit (length s.now) (length words.now) w h o }
    requires t_len { (length t.old ≡ h * w) × ((v.0 < h) × (i < n)) }
    requires fits { Fits (length words.now) o from n × Marked grows w h marks.old t.old }
    requires listed { Listed grows o words.now hs.now from n rising.now others.now ups.now
        downs.now }
    requires padded { Padded grows (row_in w s.now v.0) b.now }
    requires part_2 { Part grows s.now w h o words.now hs.now from n v.0 (from + i) t.old }
    ensures marks { Marked grows w h marks.new t.new }
    ensures part { Part grows s.now w h o words.now
        hs.now from n v.0
        (from + i + 1) t.new }
{
    let origin = o.origin;
    let r = from + i;
    let y = rows::source_row(!grows, h, v, origin.bin, Bin(r as u16));
    if h <= y {
        return;
    }
    let p = i * o.w;
    let up = cells_of(rising, ups, p, i);
    let down = cells_of(others, downs, p, i);
    let a = y * w;
    let z = a + w;
    marks[y] = join_marked(grows, bold, marks[y], &mut t[a..z], b, up, down);
}

// Source row v into every row of the result that sees it by one of the n rows of the element.
fn source_row(
    grows: bool,
    t: &mut [u8],
    marks: &mut [u8],
    w: usize,
    h: usize,
    v: Bin,
    o: Outline,
    rising: &[u16],
    others: &[u16],
    ups: &[u8],
    downs: &[u8],
    from: usize,
    n: usize,
    words: &[RowWord],
    hs: &[u8],
    s: &[u8],
)
    requires ready { Ready Depth.EightBit (length s.now) (length words.now) w h o }
    requires t_len { (length t.old ≡ h * w) × (v.0 < h) }
    requires fits { Fits (length words.now) o from n × Marked grows w h marks.old t.old }
    requires listed { Listed grows o words.now hs.now from n rising.now others.now ups.now
        downs.now }
    requires part_2 { Part grows s.now w h o words.now hs.now from n v.0 from t.old }
    ensures marks { Marked grows w h marks.new t.new }
    ensures part { Part grows s.now w h o words.now hs.now from n
        (v.0 + 1) from t.new }
{
    let mut b = [blocks::beyond(grows); weighblocks::ROOM];
    let row = row_of(s, w, v);
    fill(grows, &mut b, row);
    let bold = few_ends(grows, row);
    for i in 0..n {
        add_row(
            grows, bold, t, marks, w, h, &b, v, o, rising, others, ups, downs, from, n, i, words,
            hs, s,
        );
    }
}

// The whole picture by n rows of the element, from `from` on.
fn sweep_rows(
    grows: bool,
    s: &[u8],
    t: &mut [u8],
    w: usize,
    h: usize,
    o: Outline,
    words: &[RowWord],
    hs: &[u8],
    from: usize,
    n: usize,
)
    requires ready { Ready Depth.EightBit (length s.now) (length words.now) w h o }
    requires t_len { (length t.old ≡ h * w) × Fits (length words.now) o from n }
    requires part { Part grows s.now w h o words.now hs.now from n 0 from t.old }
    ensures { Part grows s.now w h o words.now hs.now from n
        h from t.new }
{
    let mut rising = [0u16; HELD];
    let mut others = [0u16; HELD];
    let mut ups = [0u8; ROWS];
    let mut downs = [0u8; ROWS];
    let mut marks = [0u8; picture::MOST_BINS];
    list_rows(
        &mut rising,
        &mut others,
        &mut ups,
        &mut downs,
        grows,
        o,
        words,
        hs,
        from,
        n,
    );
    for v in 0..h {
        source_row(
            grows,
            t,
            &mut marks,
            w,
            h,
            Bin(v as u16),
            o,
            &rising,
            &others,
            &ups,
            &downs,
            from,
            n,
            words,
            hs,
            s,
        );
    }
}

// How many rows of the element are listed at a time, where so many are left.
fn rows_at_once(wide: usize, left: usize) -> usize
    requires { (0 < wide) × (wide ≤ most_cells) }
    ensures { (result * wide ≤ 256) × ((result ≤ left) × (0 < left → 0 < result)) }
{
    let n = HELD / wide;
    if n < left { n } else { left }
}

// The whole picture into a target of just its size.
fn sweep_whole(
    grows: bool,
    s: &[u8],
    t: &mut [u8],
    w: usize,
    h: usize,
    o: Outline,
    words: &[RowWord],
    hs: &[u8],
)
    requires ready { Ready Depth.EightBit (length s.now) (length words.now) w h o }
    requires t_len { length t.old ≡ h * w }
    ensures { t.new
        ≡ bytes_of Depth.EightBit
        (swept_bytes grows s.now w h o words.now hs.now) w h }
{
    rows::begin(grows, 255, t);
    let mut r = 0;
    while r < o.h {
        let n = rows_at_once(o.w, o.h - r);
        sweep_rows(grows, s, t, w, h, o, words, hs, r, n);
        r += n;
    }
}

// The erosion, or the dilation, of the 8-bit picture in s by a weighted element;
// what lies past the picture in t stays. No bytes of heights are an element of height 0.
pub fn sweep(
    grows: bool,
    s: &[u8],
    t: &mut [u8],
    w: usize,
    h: usize,
    o: Outline,
    words: &[RowWord],
    heights: &[u8],
)
    requires ready { Ready Depth.EightBit (length s.now) (length words.now) w h o }
    requires holds { Holds Depth.EightBit (length t.old) w h }
    ensures { t.new
        ≡ written Depth.EightBit
        (swept_bytes grows s.now w h o words.now heights.now)
        w h t.old }
{
    let n = h * w;
    sweep_whole(grows, s, &mut t[..n], w, h, o, words, heights);
}
