// The copy of a picture, as it is or turned over, whatever its padding: the padding of the copy is 0.
// And the padding of a picture cleared where it stands.
#![tactic(auto)]

ghost use Rattle.std.specs.Prelude.{◌≡◌, false, ◌+◌, ◌*◌, ◌≤◌, ◌<◌, length};
ghost use Rattle.basics.specs.Lists.{firsts};
ghost use Rattle.picture.specs.Frame.{Holds};
ghost use Rattle.picture.specs.Points.{value_at};
ghost use Rattle.picture.specs.Bytes.{faced, written};
ghost use Rattle.copies.specs.Steps.Copy.{over_of, cleared_byte, spare_at, cleared_at, cleared_rows};

use picture::{Depth, Face};

// A byte as it is or turned over, its u low bits 0.
fn cleared(face: Face, b: u8, u: usize) -> u8
    requires { u < 8 }
    ensures { result ≡ cleared_byte (over_of face) b u }
{
    match face {
        Face::AsIs => (b >> u) << u,
        Face::TurnedOver => ((!b) >> u) << u,
    }
}

// The spare bits of byte i of a row: only the last byte has any.
fn spare_at(i: usize, n: usize, u: usize) -> usize
    requires { i < n }
    ensures { result ≡ spare_at i n u }
{
    if i + 1 == n { u } else { 0 }
}

// One row of n bytes, from the place `at` on: the padding goes to 0, turned over or not.
fn copy_row(face: Face, s: &[u8], at: usize, t: &mut [u8], n: usize, u: usize)
    requires { (u < 8) × ((length t.old ≡ n) × (at + n ≤ length s.now)) }
    ensures { t.new ≡ firsts (cleared_at (over_of face) s.now at n u) n }
{
    for i in 0..n {
        let v = spare_at(i, n, u);
        t[i] = cleared(face, s[at + i], v);
    }
}

// h rows; what lies past them in t stays.
fn copy_rows(face: Face, s: &[u8], t: &mut [u8], n: usize, u: usize, h: usize)
    requires { (u < 8) × ((h * n ≤ length t.old) × (h * n ≤ length s.now)) }
    ensures { t.new ≡ cleared_rows (over_of face) s.now n u h t.old }
{
    for y in 0..h {
        let a = y * n;
        let z = a + n;
        copy_row(face, s, a, &mut t[a..z], n, u);
    }
}

// A whole picture written row by row, padding 0; the further bytes of t stay.
pub fn copy_picture(depth: Depth, face: Face, s: &[u8], t: &mut [u8], w: usize, h: usize)
    requires holds { Holds depth (length s.now) w h }
    requires holds_2 { Holds depth (length t.old) w h }
    ensures { t.new
        ≡ written depth (faced depth face s.now w) w h t.old }
{
    let n = picture::row_bytes(depth, w);
    let u = padding::spare_bits(depth, w);
    copy_rows(face, s, t, n, u, h);
}

// The last byte of a row of n, its u low bits to 0; the others stay.
fn clear_last(t: &mut [u8], n: usize, u: usize)
    requires { (u < 8) × ((length t.old ≡ n) × (1 ≤ n)) }
    ensures { t.new ≡ firsts (cleared_at false t.old 0 n u) n }
{
    let last = n - 1;
    t[last] = cleared(Face::AsIs, t[last], u);
}

// h rows; what lies past them stays.
fn clear_rows(t: &mut [u8], n: usize, u: usize, h: usize)
    requires { (u < 8) × ((1 ≤ n) × (h * n ≤ length t.old)) }
    ensures { t.new ≡ cleared_rows false t.old n u h t.old }
{
    for y in 0..h {
        let a = y * n;
        let z = a + n;
        clear_last(&mut t[a..z], n, u);
    }
}

// The padding of the picture in t goes to 0: its points and the further bytes stay.
pub fn clear_padding(depth: Depth, t: &mut [u8], w: usize, h: usize)
    requires { Holds depth (length t.old) w h }
    ensures { t.new
        ≡ written depth (value_at depth t.old w) w h t.old }
{
    let n = picture::row_bytes(depth, w);
    let u = padding::spare_bits(depth, w);
    clear_rows(t, n, u, h);
}
