// Words of 64 points: read from packed bytes, moved on, searched for cells, and put to packed bytes.
// The first point is the highest bit.
#![tactic(auto)]

ghost use Rattle.std.specs.Prelude.{◌≡◌, cond, ℕ, ◌+◌, ◌-◌, ◌*◌, ◌%◌, ◌^◌, ◌≤◌, ◌<◌, ltb, length, get_or};
ghost use Rattle.std.specs.Int.Bits.{bit_or};
ghost use Rattle.basics.specs.Bits.{bit};
ghost use Rattle.blocks.specs.Steps.Laid.{laid};
ghost use Rattle.words.specs.Steps.Words.{word_in, half_in, cut_of, row_point, slid_of, byte_of, NextCell};

// ---- read

// One byte more at the low end of a word.
fn more(v: u64, b: u8) -> u64
    ensures { result ≡ bit_or (v * 2 ^ 8 % 2 ^ 64) b }
{
    (v << 8) | (b as u64)
}

// 4 bytes as one number.
fn four(s: &[u8], at: usize) -> u64
    requires { at + 4 ≤ length s.now }
    ensures { result ≡ half_in s.now at }
{
    more(more(more(more(0, s[at]), s[at + 1]), s[at + 2]), s[at + 3])
}

// The byte at a place, 0 past the end.
fn byte_at(s: &[u8], at: usize) -> u8
    ensures { result ≡ get_or s.now at 0 }
{
    if at < s.len() { s[at] } else { 0 }
}

// 8 bytes as one number, 0 past the end.
fn few(s: &[u8], at: usize) -> u64
    requires { at ≤ 131072 }
    ensures { result ≡ word_in s.now at }
{
    let mut v = 0;
    for i in 0..8 {
        v = more(v, byte_at(s, at + i));
    }
    v
}

// The same: the first 64 points of the bytes from a place on. Two reads where the bytes are there.
fn word_at(s: &[u8], at: usize) -> u64
    requires { at ≤ 131072 }
    ensures { result ≡ word_in s.now at }
{
    if at + 8 <= s.len() {
        return (four(s, at) << 32) | four(s, at + 4);
    }
    few(s, at)
}

// 64 points as they are or turned over.
fn faced(over: bool, v: u64) -> u64
    ensures { (result ≡ cond over (2 ^ 64 - 1 - v) v) × (v < 2 ^ 64) }
{
    if over { !v } else { v }
}

// The first w of them; the others are 0.
fn cut(over: bool, v: u64, w: usize) -> u64
    ensures { (result ≡ cut_of over v w) × (v < 2 ^ 64) }
{
    faced(over, v) & packedline::run_word(w)
}

// The first w points of the bytes from a place on, at most 64 of them; the others are 0.
pub fn points_at(over: bool, s: &[u8], at: usize, w: usize) -> u64
    requires { at ≤ 131072 }
    ensures { (result ≡ cut_of over (word_in s.now at) w)
        × ((k : ℕ) → k < 64 → bit result (63 - k) ≡ row_point over s.now at w k) }
{
    cut(over, word_at(s, at), w)
}

// ---- moved on, searched

// 64 points from d points past the first of u, which v follows.
pub fn slid(u: u64, v: u64, d: usize) -> u64
    requires { d < 64 }
    ensures { (result ≡ slid_of u v d) × ((k : ℕ) → k < 64
        → bit result (63 - k) ≡ cond (ltb (k + d) 64) (bit u (63 - (k + d))) (bit v (127 - (k + d)))) }
{
    (u << d) | (v >> 1 >> (63 - d))
}

// The first set cell from column c on; 64 where there is none.
pub fn next_cell(word: u64, c: usize) -> usize
    requires { c ≤ 64 }
    ensures { NextCell word c result }
{
    if 64 <= c {
        return 64;
    }
    let m = word << c;
    if m == 0 {
        return 64;
    }
    c + packedline::first_cell(m)
}

// ---- put

// Byte i of a word.
fn byte_of(v: u64, i: usize) -> u8
    requires { i < 8 }
    ensures { result ≡ byte_of v i }
{
    ((v >> (56 - 8 * i)) & 255) as u8
}

// The bytes of v to the places from `from` on, before `end`.
fn lay(t: &mut [u8], from: usize, end: usize, v: u64)
    requires { (from ≤ end) × ((end ≤ from + 8) × (end ≤ length t.old)) }
    ensures { t.new ≡ laid from (end - from) (byte_of v) t.old }
{
    for i in 0..end - from {
        t[from + i] = byte_of(v, i);
    }
}

// The same where they are 8: one store, once compiled.
fn lay_eight(t: &mut [u8], from: usize, v: u64)
    requires { from + 8 ≤ length t.old }
    ensures { t.new ≡ laid from 8 (byte_of v) t.old }
{
    t[from + 0] = byte_of(v, 0);
    t[from + 1] = byte_of(v, 1);
    t[from + 2] = byte_of(v, 2);
    t[from + 3] = byte_of(v, 3);
    t[from + 4] = byte_of(v, 4);
    t[from + 5] = byte_of(v, 5);
    t[from + 6] = byte_of(v, 6);
    t[from + 7] = byte_of(v, 7);
}

// The first w points of v, as they are or turned over, to the places from `from` on, before `end`.
pub fn put_points(t: &mut [u8], from: usize, end: usize, over: bool, v: u64, w: usize)
    requires { (from ≤ end) × ((end ≤ from + 8) × (end ≤ length t.old)) }
    ensures bytes { t.new
        ≡ laid from (end - from) (byte_of (cut_of over v w)) t.old }
    ensures known { v < 2 ^ 64 }
{
    let r = cut(over, v, w);
    if end - from == 8 {
        lay_eight(t, from, r);
        return;
    }
    lay(t, from, end, r);
}
