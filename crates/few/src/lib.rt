// An 8-bit picture by a flat element of at most 16 cells: they are listed once, and the picture is made
// straight from the source.
#![tactic(auto)]

ghost use Rattle.std.specs.Prelude.{◌≡◌, cond, ◌+◌, ◌^◌, ◌<◌, ltb, length, set};
ghost use Rattle.picture.specs.Frame.{Holds, frame};
ghost use Rattle.picture.specs.Points.{value_at};
ghost use Rattle.picture.specs.Bytes.{written};
ghost use Rattle.element.specs.Record.{shape_by};
ghost use Rattle.morphology.specs.Operations.{flat};
ghost use Rattle.rows.specs.Steps.Ready.{Ready};
ghost use Rattle.rows.specs.Steps.Ways.{swept_by};
ghost use Rattle.few.specs.Steps.Listed.{cells_in, is_few, Counted, Sized, Rowed};

use element::{Outline, RowWord};
use picture::Depth;

// So many cells are a few.
const FEW: usize = 16;

// One place more in a list of `count`; 17 where they are more than a few.
fn push(at: &mut [u32], count: usize, p: usize) -> usize
    requires { (length at.old ≡ 16) × (p < 2 ^ 32) }
    ensures number { result ≡ cond (ltb count 16) (count + 1) 17 }
    ensures list { at.new
        ≡ cond (ltb count 16) (set at.old count p) at.old }
{
    if FEW <= count {
        return FEW + 1;
    }
    at[count] = p as u32;
    count + 1
}

// The cells of row r after those of the rows before.
fn list_row(
    at: &mut [u32],
    n: usize,
    grows: bool,
    w: usize,
    o: Outline,
    words: &[RowWord],
    r: usize,
) -> usize
    requires sized { Sized (length words.now) w o }
    requires r_lt_h { r < o.h }
    requires rowed { Rowed grows w o words.now r n at.old }
    requires counted { Counted n 0 (cells_in words.now o.w r) }
    ensures list { Rowed grows w o words.now (r + 1) result at.new }
    ensures number { Counted result 0 (cells_in words.now o.w (r + 1)) }
{
    let word = words[r] & packedline::run_word(o.w);
    let base = cellwise::side(grows, o.h, r) * w;
    let mut m = word;
    let mut count = n;
    // The cells are taken out of the word one by one: std has no iterator of them, so a `while`.
    while m != 0 {
        let c = packedline::first_cell(m);
        count = push(at, count, base + cellwise::side(grows, o.w, c));
        m = m - packedline::cell_bit(c);
    }
    count
}

// All cells, or more than a few: then the list says nothing.
fn list_cells(at: &mut [u32], grows: bool, w: usize, o: Outline, words: &[RowWord]) -> usize
    requires sized { Sized (length words.now) w o }
    requires at_len { length at.old ≡ 16 }
    ensures list { Rowed grows w o words.now o.h result at.new }
    ensures number { Counted result 0 (cells_in words.now o.w o.h) }
{
    let mut n = 0;
    for r in 0..o.h {
        n = list_row(at, n, grows, w, o, words, r);
        if FEW < n {
            return n;
        }
    }
    n
}

// The erosion, or the dilation, of the 8-bit picture in s by a flat element of at most 16 cells;
// what lies past the picture in t stays. Where the cells are more, it says so and changes nothing.
pub fn sweep(
    grows: bool,
    s: &[u8],
    t: &mut [u8],
    w: usize,
    h: usize,
    o: Outline,
    words: &[RowWord],
) -> bool
    requires ready { Ready Depth.EightBit (length s.now) (length words.now) w h o }
    requires holds { Holds Depth.EightBit (length t.old) w h }
    ensures few { result ≡ is_few words.now o }
    ensures bytes { t.new
        ≡ cond (is_few words.now o)
        (written Depth.EightBit
        (swept_by grows flat 255 (frame w h) (shape_by o words.now)
        (value_at Depth.EightBit s.now w)) w h t.old)
        t.old }
{
    let mut at = [0u32; FEW];
    let m = list_cells(&mut at, grows, w, o, words);
    if FEW < m {
        return false;
    }
    let n = h * w;
    cellwise::sweep_whole(grows, s, &mut t[..n], w, h, o, words, &at[..m]);
    true
}
