// What echtext prints of a picture.
#![tactic(auto)]

ghost use Rattle.std.specs.Prelude.{◌≡◌, ◌++◌, ◌+◌, ◌*◌, ◌≤◌, ◌<◌, length, drop};
ghost use Rattle.basics.specs.Lists.{joined};
ghost use Rattle.digits.specs.Put.{put};
ghost use Rattle.picture.specs.Frame.{most_pings, row_bytes, Holds};
ghost use Rattle.picture.specs.Points.{value_at};
ghost use Rattle.text.specs.Text.{mark, item_of, head_line, row_lines};
ghost use Rattle.text.specs.Text.{text_of};
ghost use Rattle.text.specs.Steps.Lines.{point_item, line_of};

use picture::{Bin, Depth, Ping, Point};

fn mark_of(v: u8) -> u8
    ensures { result ≡ mark v }
{
    match v {
        0 => b'.',
        _ => b'#',
    }
}

// One point as it is printed: a mark of one bit, else its value, after a space where others stand before it.
fn put_item(depth: Depth, t: &mut [u8], at: usize, v: u8, x: Ping) -> usize
    requires { at + length (item_of depth v x.0) ≤ length t.old }
    ensures value { result ≡ at + length (item_of depth v x.0) }
    ensures t_after { t.new ≡ put at (item_of depth v x.0) t.old }
{
    match depth {
        Depth::OneBit => digits::put_byte(t, at, mark_of(v)),
        Depth::EightBit => {
            let n = usize::from(v);
            if x.0 == 0 {
                return decimals::put_decimal(t, at, n);
            }
            decimals::put_labelled(t, at, b" ", n)
        }
    }
}

// The points of row y.
fn put_items(depth: Depth, t: &mut [u8], at: usize, s: &[u8], w: usize, y: Bin) -> usize
    requires w_le_most_pings { (w ≤ most_pings)
        × (y.0 * row_bytes depth w + row_bytes depth w ≤ length s.now) }
    requires w_in_bounds { at + length (joined (point_item depth (value_at depth s.now w) y.0) w)
        ≤ length t.old }
    ensures value { result
        ≡ at + length (joined (point_item depth (value_at depth s.now w) y.0) w) }
    ensures t_after { t.new
        ≡ put at (joined (point_item depth (value_at depth s.now w) y.0) w) t.old }
{
    let mut next = at;
    for x in 0..w {
        let ping = Ping(x as u16);
        let v = points::value(depth, s, w, Point { ping, bin: y });
        next = put_item(depth, t, next, v, ping);
    }
    next
}

// Row y, as a line.
fn put_line(depth: Depth, t: &mut [u8], at: usize, s: &[u8], w: usize, y: Bin) -> usize
    requires w_le_most_pings { (w ≤ most_pings)
        × (y.0 * row_bytes depth w + row_bytes depth w ≤ length s.now) }
    requires y_in_bounds { at + length (line_of depth (value_at depth s.now w) w y.0) ≤ length t.old }
    ensures value { result ≡ at + length (line_of depth (value_at depth s.now w) w y.0) }
    ensures t_after { t.new
        ≡ put at (line_of depth (value_at depth s.now w) w y.0) t.old }
{
    let next = put_items(depth, t, at, s, w, y);
    digits::put_byte(t, next, b'\n')
}

// All rows.
fn put_lines(depth: Depth, t: &mut [u8], at: usize, s: &[u8], w: usize, h: usize) -> usize
    requires holds { Holds depth (length s.now) w h }
    requires h_in_bounds { at + length (row_lines depth (value_at depth s.now w) w h) ≤ length t.old }
    ensures value { result ≡ at + length (row_lines depth (value_at depth s.now w) w h) }
    ensures t_after { t.new
        ≡ put at (row_lines depth (value_at depth s.now w) w h) t.old }
{
    let mut next = at;
    for y in 0..h {
        next = put_line(depth, t, next, s, w, Bin(y as u16));
    }
    next
}

// The first line: ECH, the size and the kind.
fn put_head(t: &mut [u8], w: usize, h: usize, kind: usize) -> usize
    requires { length (head_line w h kind) ≤ length t.old }
    ensures value { result ≡ length (head_line w h kind) }
    ensures t_after { t.new ≡ put 0 (head_line w h kind) t.old }
{
    let a = decimals::put_labelled(t, 0, b"ECH ", w);
    let b = decimals::put_labelled(t, a, b"x", h);
    let c = decimals::put_labelled(t, b, b" kind ", kind);
    digits::put_byte(t, c, b'\n')
}

// The text of a picture at the start of t; the further bytes stay.
pub fn put_text(depth: Depth, t: &mut [u8], s: &[u8], w: usize, h: usize, kind: usize) -> usize
    requires holds { Holds depth (length s.now) w h }
    requires kind_in_bounds { length (text_of depth (value_at depth s.now w) w h kind) ≤ length t.old }
    ensures value { result ≡ length (text_of depth (value_at depth s.now w) w h kind) }
    ensures t_after { t.new
        ≡ text_of depth (value_at depth s.now w) w h kind
        ++ drop (length (text_of depth (value_at depth s.now w) w h kind)) t.old }
{
    let at = put_head(t, w, h, kind);
    put_lines(depth, t, at, s, w, h)
}
