// A point's value in packed rows, read and written by shifts and masks.
#![tactic(auto)]

ghost use Rattle.std.specs.Prelude.{◌≡◌, ◌^◌, ◌≤◌, length};
ghost use Rattle.picture.specs.Frame.{most_pings};
ghost use Rattle.picture.specs.Points.{column_byte, place, byte_at, value_in};
ghost use Rattle.picture.specs.Points.{value_at, put_in, put_at, Within};

use picture::{Depth, Ping, Point};

// How far a column's bit stands from the low end of its byte: the first ping is the highest bit.
fn shift_of(p: Ping) -> u16
    ensures { result ≡ place p.0 }
{
    7 - (p.0 & 7)
}

// The byte with that bit alone.
fn mask_of(p: Ping) -> u8
    ensures { result ≡ 2 ^ place p.0 }
{
    1 << shift_of(p)
}

fn column_byte(depth: Depth, p: Ping) -> usize
    ensures { result ≡ column_byte depth p.0 }
{
    let x = usize::from(p.0);
    match depth {
        Depth::OneBit => x >> 3,
        Depth::EightBit => x,
    }
}

// The byte of a point.
fn byte_of(depth: Depth, w: usize, p: Point) -> usize
    requires { w ≤ most_pings }
    ensures { result ≡ byte_at depth w p.ping.0 p.bin.0 }
{
    let y = usize::from(p.bin.0);
    y * picture::row_bytes(depth, w) + column_byte(depth, p.ping)
}

// The value of a column in its byte.
pub fn value_in(depth: Depth, b: u8, p: Ping) -> u8
    ensures { result ≡ value_in depth b p.0 }
{
    match depth {
        Depth::OneBit => (b >> shift_of(p)) & 1,
        Depth::EightBit => b,
    }
}

// The value of a point.
pub fn value(depth: Depth, s: &[u8], w: usize, p: Point) -> u8
    requires { Within depth (length s.now) w p.ping.0 p.bin.0 }
    ensures { result ≡ value_at depth s.now w p.ping.0 p.bin.0 }
{
    let at = byte_of(depth, w, p);
    value_in(depth, s[at], p.ping)
}

fn one_bit_put(b: u8, p: Ping, v: u8) -> u8
    ensures { result ≡ put_in Depth.OneBit b p.0 v }
{
    let m = mask_of(p);
    if v == 0 { b & !m } else { b | m }
}

// A byte with another value in one column.
fn put_in(depth: Depth, b: u8, p: Ping, v: u8) -> u8
    ensures { result ≡ put_in depth b p.0 v }
{
    match depth {
        Depth::OneBit => one_bit_put(b, p, v),
        Depth::EightBit => v,
    }
}

// Another value at a point: every other point and the padding stay.
pub fn put(depth: Depth, t: &mut [u8], w: usize, p: Point, v: u8)
    requires { Within depth (length t.old) w p.ping.0 p.bin.0 }
    ensures { t.new ≡ put_at depth t.old w p.ping.0 p.bin.0 v }
{
    let at = byte_of(depth, w, p);
    t[at] = put_in(depth, t[at], p.ping, v);
}
