// A cell of a packed row, up to eight bytes of it as one word, and what a row gives to a cell beside it.
#![tactic(auto)]

ghost use Rattle.std.specs.Prelude.{◌≡◌, ◌+◌, ◌*◌, ◌^◌, ◌≤◌, ◌<◌, length};
ghost use Rattle.settle.specs.Steps.Words.{word_of, byte_before, byte_from, across_of, spread_of};

// Most bytes of a cell.
const BYTES: usize = 8;

// Rows of n bytes with u spare bits, h of them; and of row y the k bytes from byte j on.
// The points aslant count, as with the square, or do not, as with the cross.
#[derive(Clone, Copy)]
pub struct Cell {
    pub square: bool,
    pub n: usize,
    pub u: usize,
    pub h: usize,
    pub y: usize,
    pub j: usize,
    pub k: usize,
}

// Two words of d bits each as one, the first the higher.
fn pair(d: u64, a: u64, b: u64) -> u64
    requires { (d ≤ 32) × ((a < 2 ^ d) × (b < 2 ^ d)) }
    ensures { (result ≡ a * 2 ^ d + b) × (result < 2 ^ (d + d)) }
{
    (a << d) | b
}

// Eight bytes as one word, in pairs, which is compiled to one load.
fn eight(s: &[u8], at: usize) -> u64
    requires { at + 8 ≤ length s.now }
    ensures { result ≡ word_of s.now at 8 }
{
    let a = pair(8, u64::from(s[at]), u64::from(s[at + 1]));
    let b = pair(8, u64::from(s[at + 2]), u64::from(s[at + 3]));
    let c = pair(8, u64::from(s[at + 4]), u64::from(s[at + 5]));
    let d = pair(8, u64::from(s[at + 6]), u64::from(s[at + 7]));
    pair(32, pair(16, a, b), pair(16, c, d))
}

// Fewer.
fn few(s: &[u8], at: usize, k: usize) -> u64
    requires { (k ≤ 8) × (at + k ≤ length s.now) }
    ensures { result ≡ word_of s.now at k }
{
    let mut v: u64 = 0;
    for i in 0..k {
        v = (v << 8) | u64::from(s[at + i]);
    }
    v
}

// The k bytes from the place `at` on as one word, the first the highest.
pub fn word(s: &[u8], at: usize, k: usize) -> u64
    requires { (k ≤ 8) × (at + k ≤ length s.now) }
    ensures { result ≡ word_of s.now at k }
{
    if k == BYTES {
        return eight(s, at);
    }
    few(s, at, k)
}

// The byte before byte j of the row from `at` on, 0 before its first.
fn byte_before(s: &[u8], at: usize, j: usize) -> u64
    requires { at + j ≤ length s.now }
    ensures { result ≡ byte_before s.now at j }
{
    if 0 < j { u64::from(s[at + j - 1]) } else { 0 }
}

// Byte j of the row of n bytes from `at` on, 0 past its last.
fn byte_from(s: &[u8], at: usize, n: usize, j: usize) -> u64
    requires { at + n ≤ length s.now }
    ensures { result ≡ byte_from s.now at n j }
{
    if j < n { u64::from(s[at + j]) } else { 0 }
}

// The points of k bytes of a row, and those right and left of a set point.
pub fn across(s: &[u8], at: usize, n: usize, j: usize, k: usize) -> u64
    requires { ((1 ≤ k) × (k ≤ 8)) × ((j + k ≤ n) × (at + n ≤ length s.now)) }
    ensures { result ≡ across_of s.now at n j k }
{
    let v = word(s, at + j, k);
    let before = byte_before(s, at, j) & 1;
    let after = byte_from(s, at, n, j + k) >> 7;
    v | (v >> 1) | (v << 1) | (before << (8 * k - 1)) | after
}

// What a row above or below gives.
pub fn spread(square: bool, s: &[u8], at: usize, n: usize, j: usize, k: usize) -> u64
    requires { ((1 ≤ k) × (k ≤ 8)) × ((j + k ≤ n) × (at + n ≤ length s.now)) }
    ensures { result ≡ spread_of square s.now at n j k }
{
    if square {
        return across(s, at, n, j, k);
    }
    word(s, at + j, k)
}
