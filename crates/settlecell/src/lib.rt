// A cell of a packed row grown in place inside the mask:
// by what is set in it, beside it, above it and below it, until nothing in the cell changes.
#![tactic(auto)]

ghost use Rattle.std.specs.Prelude.{◌≡◌, not, ◌≤◌, ◌<◌, eqb, length};
ghost use Rattle.basics.specs.Lists.{firsts};
ghost use Rattle.settle.specs.Steps.Words.{once_in, flooded, byte_of};
ghost use Rattle.settle.specs.Steps.Cells.{above_of, below_of, around_of, mask_of};
ghost use Rattle.settle.specs.Steps.Cells.{cell_word, grown_word, settled, Fits};

use settle::Cell;

// Most points of a cell.
const POINTS: usize = 64;

fn above(c: Cell, s: &[u8]) -> u64
    requires { Fits c (length s.now) }
    ensures { result ≡ above_of c s.now }
{
    if 0 < c.y {
        settle::spread(c.square, s, (c.y - 1) * c.n, c.n, c.j, c.k)
    } else {
        0
    }
}

fn below(c: Cell, s: &[u8]) -> u64
    requires { Fits c (length s.now) }
    ensures { result ≡ below_of c s.now }
{
    if c.y + 1 < c.h {
        settle::spread(c.square, s, (c.y + 1) * c.n, c.n, c.j, c.k)
    } else {
        0
    }
}

// The points of the cell that are set or have a set point beside them.
fn around(c: Cell, s: &[u8]) -> u64
    requires { Fits c (length s.now) }
    ensures { result ≡ around_of c s.now }
{
    let own = settle::across(s, c.y * c.n, c.n, c.j, c.k);
    own | above(c, s) | below(c, s)
}

// The mask's points in the cell: the padding of a row is none of them.
fn mask_word(c: Cell, mask: &[u8]) -> u64
    requires { Fits c (length mask.now) }
    ensures { result ≡ mask_of c mask.now }
{
    let v = settle::word(mask, c.y * c.n + c.j, c.k);
    if c.j + c.k == c.n {
        return (v >> c.u) << c.u;
    }
    v
}

fn once_in(m: u64, o: u64, c: u64) -> u64
    ensures { result ≡ once_in m o c }
{
    c | (m & (o | (c >> 1) | (c << 1)))
}

// Until nothing changes: a word has 64 points, so that 64 times are enough.
fn flood(m: u64, o: u64, c: u64) -> u64
    ensures { result ≡ flooded m o c 64 }
{
    let mut v = c;
    for i in 0..POINTS {
        let next = once_in(m, o, v);
        if next == v {
            return v;
        }
        v = next;
    }
    v
}

fn byte_of(v: u64, k: usize, i: usize) -> u8
    requires { (i < k) × (k ≤ 8) }
    ensures { result ≡ byte_of v k i }
{
    ((v >> (8 * (k - 1 - i))) % 256) as u8
}

// The bytes of a word.
fn put_word(t: &mut [u8], k: usize, v: u64)
    requires { (k ≤ 8) × (length t.old ≡ k) }
    ensures { t.new ≡ firsts (byte_of v k) k }
{
    for i in 0..k {
        t[i] = byte_of(v, k, i);
    }
}

// The cell grown as far as it gets by itself, at once where it has all of the mask. Whether anything changed.
pub fn settle_cell(c: Cell, mask: &[u8], t: &mut [u8]) -> bool
    requires fits { Fits c (length mask.now) }
    requires fits_2 { Fits c (length t.old) }
    ensures changed { result ≡ not (eqb (grown_word c mask.now t.old) (cell_word c t.old)) }
    ensures bytes { t.new ≡ settled c mask.now t.old }
{
    let a = c.y * c.n + c.j;
    let z = a + c.k;
    let was = settle::word(&t[..], a, c.k);
    let m = mask_word(c, mask);
    if m | was == was {
        return false;
    }
    let o = around(c, &t[..]);
    let v = flood(m, o, was);
    if v == was {
        return false;
    }
    put_word(&mut t[a..z], c.k, v);
    true
}
