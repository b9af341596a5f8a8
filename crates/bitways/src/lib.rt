// The ways that a one-bit picture goes by a flat element: in words, as a rectangle, by source rows, row by
// row. Which one is a matter of time alone: the promise is the same.
// Here and below, a slice is handed on as `&s[..]`: handed on as it came it would be copied in each frame.
#![tactic(auto)]

ghost use Rattle.std.specs.Prelude.{◌≡◌, ◌*◌, ◌≤◌, length};
ghost use Rattle.picture.specs.Frame.{Holds, frame};
ghost use Rattle.picture.specs.Points.{value_at};
ghost use Rattle.picture.specs.Bytes.{written};
ghost use Rattle.element.specs.Descriptor.{most_cells};
ghost use Rattle.element.specs.Record.{shape_by};
ghost use Rattle.morphology.specs.Operations.{flat};
ghost use Rattle.rows.specs.Steps.Ready.{Ready};
ghost use Rattle.rows.specs.Steps.Ways.{swept_by};
ghost use Rattle.plan.specs.Steps.Plan.{outline_by, grows_by};

use bitrow::Task;
use element::RowWord;
use picture::{Bin, Depth};

// From so many cells on, and so many for each row of the element, a one-bit picture goes by source rows.
const MANY: usize = 64;

const MANY_IN_A_ROW: usize = 4;

// The whole one-bit picture, row by row; what lies past it in t stays.
fn sweep_bits(plan: usize, s: &[u8], t: &mut [u8], w: usize, h: usize, words: &[RowWord])
    requires ready { Ready Depth.OneBit (length s.now) (length words.now) w h (outline_by plan) }
    requires holds { Holds Depth.OneBit (length t.old) w h }
    ensures { t.new
        ≡ written Depth.OneBit
        (swept_by (grows_by plan) flat 1 (frame w h) (shape_by (outline_by plan) words.now)
        (value_at Depth.OneBit s.now w)) w h t.old }
{
    let o = plan::outline_of(plan);
    let grows = plan::grows_of(plan);
    let k = Task { over: false, grows };
    let n = picture::row_bytes(Depth::OneBit, w);
    for y in 0..h {
        let a = y * n;
        let z = a + n;
        narrow::any_row(k, &mut t[a..z], &s[..], w, h, Bin(y as u16), o, &words[..]);
    }
}

// How many cells are set in the first h row words.
fn cells_in(words: &[RowWord], h: usize) -> usize
    requires { (h ≤ length words.now) × (h ≤ most_cells) }
    ensures { result ≤ most_cells * most_cells }
{
    let mut n = 0;
    for r in 0..h {
        n += packedline::cell_count(words[r]);
    }
    n
}

// Whether the windows of a source row pay, made once for all the rows that see it: that is a matter of time
// alone.
fn is_dense(words: &[RowWord], h: usize) -> bool
    requires { (h ≤ length words.now) × (h ≤ most_cells) }
{
    let n = cells_in(&words[..], h);
    if n <= MANY {
        return false;
    }
    MANY_IN_A_ROW * h < n
}

// By source rows where that pays, else row by row.
// A call for each way: a function with one call is taken into its caller, and its room with it.
fn any_bits(plan: usize, s: &[u8], t: &mut [u8], w: usize, h: usize, words: &[RowWord])
    requires ready { Ready Depth.OneBit (length s.now) (length words.now) w h (outline_by plan) }
    requires holds { Holds Depth.OneBit (length t.old) w h }
    ensures { t.new
        ≡ written Depth.OneBit
        (swept_by (grows_by plan) flat 1 (frame w h) (shape_by (outline_by plan) words.now)
        (value_at Depth.OneBit s.now w)) w h t.old }
{
    let o = plan::outline_of(plan);
    if is_dense(&words[..], o.h) {
        if plan::grows_of(plan) {
            bitsource::sweep_by_plan(plan::plan_of(true, o), &s[..], t, w, h, &words[..]);
            return;
        }
        bitsource::sweep_by_plan(plan::plan_of(false, o), &s[..], t, w, h, &words[..]);
        return;
    }
    sweep_bits(plan, &s[..], t, w, h, &words[..]);
}

// A one-bit picture by a flat element, of rows too long for words: a rectangle goes its own way, but for one
// row alone, which is sooner made row by row. Each way is the last call, and is handed nothing of this frame,
// so that this frame is gone before it.
fn wide_bits(plan: usize, s: &[u8], t: &mut [u8], w: usize, h: usize, words: &[RowWord])
    requires ready { Ready Depth.OneBit (length s.now) (length words.now) w h (outline_by plan) }
    requires holds { Holds Depth.OneBit (length t.old) w h }
    ensures { t.new
        ≡ written Depth.OneBit
        (swept_by (grows_by plan) flat 1 (frame w h) (shape_by (outline_by plan) words.now)
        (value_at Depth.OneBit s.now w)) w h t.old }
{
    let o = plan::outline_of(plan);
    if 1 < o.h {
        if boxes::is_box(&words[..], o) {
            // a call for each way, as above
            if plan::grows_of(plan) {
                rectangle::bits_by_plan(true, &s[..], t, w, h, plan);
                return;
            }
            rectangle::bits_by_plan(false, &s[..], t, w, h, plan);
            return;
        }
    }
    any_bits(plan, &s[..], t, w, h, &words[..]);
}

// The erosion, or the dilation, of the one-bit picture in s by a flat element;
// what lies past the picture in t stays.
pub fn sweep(plan: usize, s: &[u8], t: &mut [u8], w: usize, h: usize, words: &[RowWord])
    requires ready { Ready Depth.OneBit (length s.now) (length words.now) w h (outline_by plan) }
    requires holds { Holds Depth.OneBit (length t.old) w h }
    ensures { t.new
        ≡ written Depth.OneBit
        (swept_by (grows_by plan) flat 1 (frame w h) (shape_by (outline_by plan) words.now)
        (value_at Depth.OneBit s.now w)) w h t.old }
{
    if w <= narrow::MOST {
        sweep_bits(plan, &s[..], t, w, h, &words[..]);
        return;
    }
    wide_bits(plan, &s[..], t, w, h, &words[..]);
}
