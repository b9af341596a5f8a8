// Reconstruction as a user calls it: the marker grown inside the mask, in the target, until nothing changes.
// The answer and every lent byte are settled for all inputs.
#![tactic(auto)]

ghost use Rattle.std.specs.Prelude.{◌≡◌, false, ◌||◌, ◌+◌, ◌-◌, ◌*◌, ◌≤◌, ◌<◌, length};
ghost use Rattle.answer.specs.Answer.{told};
ghost use Rattle.picture.specs.Frame.{most_bins, frame, Holds};
ghost use Rattle.picture.specs.Points.{value_at};
ghost use Rattle.picture.specs.Bytes.{written};
ghost use Rattle.grown.specs.Grown.{grown};
ghost use Rattle.grown.specs.Marker.{outside};
ghost use Rattle.reconstruct.specs.Reconstruct.{reconstruct_answer, reconstruct_left};
ghost use Rattle.reconstruct.specs.Steps.Visits.{square_of, cells, turned_of, next_row, Room, Grew};
ghost use Rattle.reconstruct.specs.Steps.Visits.{Visit, PassTo, InRow, SweptTo, StillAll};

use answer::Answer;
use grown::Neighbours;
use picture::{Depth, Face};
use settle::Cell;

// Rows of n bytes with u spare bits, h of them. `square`: the points aslant count. It stays a flag, since the
// definition `Rows` and those of crate settle, which stands below the enum, say it so (`spread_of`, `Touch`).
#[derive(Clone, Copy)]
struct Rows {
    square: bool,
    n: usize,
    u: usize,
    h: usize,
}

fn is_square(neighbours: Neighbours) -> bool
    ensures { result ≡ square_of neighbours }
{
    matches!(neighbours, Neighbours::Square)
}

// The i-th of n, from the first or from the last.
fn turned(back: bool, n: usize, i: usize) -> usize
    requires { i < n }
    ensures { (result ≡ turned_of back n i) × (result < n) }
{
    if back {
        return n - 1 - i;
    }
    i
}

// The cells of row y one after another, from the left or from the right. Whether anything changed.
fn pass(r: Rows, back: bool, y: usize, mask: &[u8], t: &mut [u8]) -> bool
    requires y_lt_h { y < r.h }
    requires room { Room r (length mask.now) }
    requires room_2 { Room r (length t.old) }
    ensures { Visit r mask.now t.old t.new result (PassTo r back y (cells r.n)) }
{
    let q = (r.n + 7) >> 3;
    let mut changed = false;
    for i in 0..q {
        let j = turned(back, q, i) * 8;
        let k = usize::min(8, r.n - j);
        let c = Cell {
            square: r.square,
            n: r.n,
            u: r.u,
            h: r.h,
            y,
            j,
            k,
        };
        let b = settlecell::settle_cell(c, mask, t);
        changed = changed | b;
    }
    changed
}

// A row, from the left; and from the right where that changed anything.
fn settle_row(r: Rows, y: usize, mask: &[u8], t: &mut [u8]) -> bool
    requires y_lt_h { y < r.h }
    requires room { Room r (length mask.now) }
    requires room_2 { Room r (length t.old) }
    ensures { Visit r mask.now t.old t.new result (InRow r y) }
{
    if pass(r, false, y, mask, t) {
        pass(r, true, y, mask, t);
        return true;
    }
    false
}

// Every row, downwards or upwards.
fn sweep(r: Rows, up: bool, mask: &[u8], t: &mut [u8]) -> bool
    requires room { Room r (length mask.now) }
    requires room_2 { Room r (length t.old) }
    ensures { Visit r mask.now t.old t.new result (SweptTo r up r.h) }
{
    let mut changed = false;
    for i in 0..r.h {
        let y = turned(up, r.h, i);
        let b = settle_row(r, y, mask, t);
        changed = changed | b;
    }
    changed
}

// The row before one that changed, the row after one that did not.
fn next_row(changed: bool, y: usize) -> usize
    requires { y < most_bins }
    ensures { result ≡ next_row changed y }
{
    if changed {
        return y.saturating_sub(1);
    }
    y + 1
}

// Back by a row wherever one changed: a winding way is followed in as many visits as it has turns.
fn walk(r: Rows, mask: &[u8], t: &mut [u8])
    requires room { Room r (length mask.now) }
    requires room_2 { Room r (length t.old) }
    ensures { Grew r mask.now t.old t.new }
{
    // Where it goes next depends on what it found, so that the rows are not counted.
    let mut y = 0;
    while y < r.h {
        let b = settle_row(r, y, mask, t);
        y = next_row(b, y);
    }
}

// The turn after turn k: odd and even by turns, without end.
fn next_turn(k: usize) -> usize
    requires { k ≤ 18 }
    ensures { result ≤ 18 }
{
    if k < 18 {
        return k + 1;
    }
    17
}

// At one turn, when sweeps have done what they do well, a walk.
fn help(r: Rows, k: usize, mask: &[u8], t: &mut [u8])
    requires room { Room r (length mask.now) }
    requires room_2 { Room r (length t.old) }
    ensures { Grew r mask.now t.old t.new }
{
    if k == 16 {
        walk(r, mask, t);
    }
}

// Sweeps down and up by turns, until one changes nothing.
fn grow(r: Rows, mask: &[u8], t: &mut [u8])
    requires room { Room r (length mask.now) }
    requires room_2 { Room r (length t.old) }
    ensures grew { Grew r mask.now t.old t.new }
    ensures still { StillAll r mask.now t.new }
{
    let mut k = 0;
    loop {
        help(r, k, mask, t);
        if !sweep(r, k % 2 == 1, mask, t) {
            return;
        }
        k = next_turn(k);
    }
}

// The marker copied, its padding 0, and grown where it stands.
fn make(neighbours: Neighbours, w: usize, h: usize, marker: &[u8], mask: &[u8], target: &mut [u8])
    requires holds { Holds Depth.OneBit (length marker.now) w h }
    requires holds_2 { Holds Depth.OneBit (length mask.now) w h }
    requires holds_3 { Holds Depth.OneBit (length target.old) w h }
    requires w_value { outside (frame w h) (value_at Depth.OneBit mask.now w) (value_at Depth.OneBit
        marker.now w)
        ≡ false }
    ensures { target.new
        ≡ written Depth.OneBit
        (grown neighbours (frame w h) (value_at Depth.OneBit mask.now w)
        (value_at Depth.OneBit marker.now w))
        w h target.old }
{
    copies::copy_picture(Depth::OneBit, Face::AsIs, marker, target, w, h);
    let n = picture::row_bytes(Depth::OneBit, w);
    let u = padding::spare_bits(Depth::OneBit, w);
    let r = Rows {
        square: is_square(neighbours),
        n,
        u,
        h,
    };
    grow(r, mask, target);
}

// The points of the mask that neighbouring steps inside it join to a point of the marker.
pub fn reconstruct(
    neighbours: Neighbours,
    w: usize,
    h: usize,
    marker: &[u8],
    mask: &[u8],
    target: &mut [u8],
) -> Answer
    ensures answer { told result
        ≡ reconstruct_answer w h marker.now mask.now (length target.old) }
    ensures bytes { target.new
        ≡ reconstruct_left neighbours w h marker.now mask.now target.old }
{
    marker::refusal(w, h, marker, mask, target.len())?;
    make(neighbours, w, h, marker, mask, target);
    Ok(())
}
