// The nodes that a point of a one-bit picture is united with: like neighbours before it, what lies beyond.
// Node 0 is what lies beyond the frame, node p + 1 is point p in row order.
// Each function is its definition, test by test, once that unfolds.
#![tactic(auto)]

ghost use Rattle.std.specs.Prelude.{◌≡◌, ◌*◌, ◌<◌, length};
ghost use Rattle.regions.specs.Regions.{point_of};
ghost use Rattle.mates.specs.Steps.Framed.{Framed};
ghost use Rattle.regions.specs.Steps.Union.{edge_at, outer_mate, left_mate, up_mate, up_left_mate};
ghost use Rattle.regions.specs.Steps.Union.{up_right_mate, mate_of};

use picture::{Bin, Depth, Ping, Point};

// The value of point i.
fn point(s: &[u8], w: usize, h: usize, i: usize) -> u8
    requires framed { Framed (length s.now) w h }
    requires i_bound { i < h * w }
    ensures { result ≡ point_of s.now w i }
{
    let x = (i % w) as u16;
    let y = (i / w) as u16;
    let p = Point {
        ping: Ping(x),
        bin: Bin(y),
    };
    points::value(Depth::OneBit, s, w, p)
}

// A point of this column and row lies on the frame's edge.
fn on_edge(x: usize, y: usize, w: usize, h: usize) -> bool
    requires { (x < 65536) × (y < 65536) }
    ensures { result ≡ edge_at x y w h }
{
    x == 0 || x + 1 == w || y == 0 || y + 1 == h
}

// The nodes that node i + 1 is united with. Where there is none it is the node itself, which changes nothing
// when united, so that no caller asks whether there is one; `mate_of` and the theorem `mate_le` say it so.
// What lies beyond, where the point is background on the edge.
#[tactic(auto, unfolding(regions::specs::Steps::Union::outer_mate))]
fn outer_mate(s: &[u8], w: usize, h: usize, i: usize) -> usize
    requires framed { Framed (length s.now) w h }
    requires i_bound { i < h * w }
    ensures { result ≡ outer_mate (point_of s.now w) w h i }
{
    if point(s, w, h, i) == 0 && on_edge(i % w, i / w, w, h) {
        return 0;
    }
    i + 1
}

// The point to the left, where it is like.
#[tactic(auto, unfolding(regions::specs::Steps::Union::left_mate))]
fn left_mate(s: &[u8], w: usize, h: usize, i: usize) -> usize
    requires framed { Framed (length s.now) w h }
    requires i_bound { i < h * w }
    ensures { result ≡ left_mate (point_of s.now w) w i }
{
    if i % w == 0 {
        return i + 1;
    }
    if point(s, w, h, i - 1) == point(s, w, h, i) {
        return i;
    }
    i + 1
}

// The point above, where it is like.
#[tactic(auto, unfolding(regions::specs::Steps::Union::up_mate))]
fn up_mate(s: &[u8], w: usize, h: usize, i: usize) -> usize
    requires framed { Framed (length s.now) w h }
    requires i_bound { i < h * w }
    ensures { result ≡ up_mate (point_of s.now w) w i }
{
    if i / w == 0 {
        return i + 1;
    }
    if point(s, w, h, i - w) == point(s, w, h, i) {
        return i - w + 1;
    }
    i + 1
}

// The point above and to the left, where both are echoes.
#[tactic(auto, unfolding(regions::specs::Steps::Union::up_left_mate))]
fn up_left_mate(s: &[u8], w: usize, h: usize, i: usize) -> usize
    requires framed { Framed (length s.now) w h }
    requires i_bound { i < h * w }
    ensures { result ≡ up_left_mate (point_of s.now w) w i }
{
    if i / w == 0 || i % w == 0 || point(s, w, h, i) == 0 {
        return i + 1;
    }
    if point(s, w, h, i - w - 1) == point(s, w, h, i) {
        return i - w;
    }
    i + 1
}

// The point above and to the right, where both are echoes.
#[tactic(auto, unfolding(regions::specs::Steps::Union::up_right_mate))]
fn up_right_mate(s: &[u8], w: usize, h: usize, i: usize) -> usize
    requires framed { Framed (length s.now) w h }
    requires i_bound { i < h * w }
    ensures { result ≡ up_right_mate (point_of s.now w) w i }
{
    if i / w == 0 || i % w + 1 == w || point(s, w, h, i) == 0 {
        return i + 1;
    }
    if point(s, w, h, i - w + 1) == point(s, w, h, i) {
        return i - w + 2;
    }
    i + 1
}

// Mate k of point i, no later than the point itself.
#[tactic(auto, unfolding(regions::specs::Steps::Union::mate_of))]
pub fn mate(s: &[u8], w: usize, h: usize, i: usize, k: usize) -> usize
    requires framed { Framed (length s.now) w h }
    requires i_bound { i < h * w }
    ensures { result ≡ mate_of (point_of s.now w) w h i k }
{
    match k {
        0 => outer_mate(s, w, h, i),
        1 => left_mate(s, w, h, i),
        2 => up_mate(s, w, h, i),
        3 => up_left_mate(s, w, h, i),
        _ => up_right_mate(s, w, h, i),
    }
}
