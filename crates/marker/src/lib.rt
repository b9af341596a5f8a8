// What a call that grows a marker inside a mask is refused for, judged whole before a byte is written:
// SIZE, SOURCE of the marker and of the mask, MARKER, ROOM.
#![tactic(auto)]

ghost use Rattle.std.specs.Prelude.{◌≡◌, not, ◌&&◌, [], ◌∷◌, ◌+◌, ◌*◌, ◌≤◌, ◌<◌, length};
ghost use Rattle.answer.specs.Answer.{told, plain};
ghost use Rattle.answer.specs.Refuse.{refuse};
ghost use Rattle.picture.specs.Frame.{frame, Holds};
ghost use Rattle.picture.specs.Points.{value_at};
ghost use Rattle.grown.specs.Marker.{outside};
ghost use Rattle.marker.specs.Tests.{grow_tests};
ghost use Rattle.marker.specs.Steps.Bytes.{byte_within, row_within, rows_within, fits};

use answer::{Answer, Refusal};
use judge::Padding;
use picture::Depth;

// No bit of a stands where b has none, but for the u lowest.
fn byte_within(a: u8, b: u8, u: usize) -> bool
    requires { u < 8 }
    ensures { result ≡ byte_within a b u }
{
    (a & !b) >> u == 0
}

// So of each of n bytes from the place `at` on: of the last but for its u lowest bits.
fn row_within(a: &[u8], b: &[u8], at: usize, n: usize, u: usize) -> bool
    requires le_n { (1 ≤ n) × (u < 8) }
    requires n_in_bounds { (at + n ≤ length a.now) × (at + n ≤ length b.now) }
    ensures { result ≡ row_within a.now b.now at n u }
{
    let last = n - 1;
    for i in 0..last {
        if !byte_within(a[at + i], b[at + i], 0) {
            return false;
        }
    }
    byte_within(a[at + last], b[at + last], u)
}

// And of each of h rows.
fn rows_within(a: &[u8], b: &[u8], n: usize, u: usize, h: usize) -> bool
    requires le_n { (1 ≤ n) × (u < 8) }
    requires n_in_bounds { (h * n ≤ length a.now) × (h * n ≤ length b.now) }
    ensures { result ≡ rows_within a.now b.now n u h }
{
    for y in 0..h {
        if !row_within(a, b, y * n, n, u) {
            return false;
        }
    }
    true
}

// No marker point lies outside the mask, whatever stands in their padding.
fn lies_within(marker: &[u8], mask: &[u8], w: usize, h: usize) -> bool
    requires holds { Holds Depth.OneBit (length marker.now) w h }
    requires holds_2 { Holds Depth.OneBit (length mask.now) w h }
    ensures { result
        ≡ not (outside (frame w h) (value_at Depth.OneBit mask.now w)
        (value_at Depth.OneBit marker.now w)) }
{
    let n = picture::row_bytes(Depth::OneBit, w);
    let u = padding::spare_bits(Depth::OneBit, w);
    rows_within(marker, mask, n, u, h)
}

// MARKER, where the frame and both lengths let it be seen.
fn marker_answer(w: usize, h: usize, marker: &[u8], mask: &[u8]) -> Answer
    ensures { told result
        ≡ refuse
        ((
          fits w h marker.now mask.now
              && outside (frame w h) (value_at Depth.OneBit mask.now w)
              (value_at Depth.OneBit marker.now w),
          12,
        ) ∷ []) (plain 0) }
{
    if !picture::sized(w, h) {
        return Ok(());
    }
    let n = picture::picture_bytes(Depth::OneBit, w, h);
    if marker.len() != n {
        return Ok(());
    }
    if mask.len() != n {
        return Ok(());
    }
    if lies_within(marker, mask, w, h) {
        return Ok(());
    }
    Err(Refusal::Marker)
}

// The first refusal of a call with this marker and this mask, whose target has `room` bytes.
pub fn refusal(w: usize, h: usize, marker: &[u8], mask: &[u8], room: usize) -> Answer
    ensures { told result ≡ refuse (grow_tests w h marker.now mask.now room) (plain 0) }
{
    let found = marker_answer(w, h, marker, mask);
    let then = judge::refusal(Padding::Free, Depth::OneBit, w, h, mask, found, 0, room);
    judge::refusal(Padding::Free, Depth::OneBit, w, h, marker, then, 0, room)
}
