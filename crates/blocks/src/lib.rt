// Blocks of packed points: 64 bytes by value, which the compiler keeps in vector registers, also round a
// loop.
#![tactic(auto)]

ghost use Rattle.std.specs.Prelude.{◌≡◌, ◌+◌, ◌≤◌, ◌<◌, length, get_or, replicate};
ghost use Rattle.basics.specs.Lists.{firsts};
ghost use Rattle.rows.specs.Steps.Fold.{start_by};
ghost use Rattle.blocks.specs.Steps.Joins.{join_packed};
ghost use Rattle.blocks.specs.Steps.Laid.{laid};
ghost use Rattle.blocks.specs.Steps.Block.{block_of, joined_block, joined_bits};
ghost use Rattle.blocks.specs.Steps.Points.{shifted_of};

pub const BLOCK: usize = 64;

// Two bytes joined: eight points at once.
pub fn joined(grows: bool, a: u8, b: u8) -> u8
    ensures { result ≡ join_packed grows a b }
{
    if grows { a | b } else { a & b }
}

// Eight points beyond the frame: joined with any others they change nothing.
pub fn beyond(grows: bool) -> u8
    ensures { result ≡ start_by grows 255 }
{
    if grows { 0 } else { 255 }
}

// The N bytes of s from the place `at` on, by value.
pub fn bytes_at<const N: usize>(s: &[u8], at: usize) -> [u8; N]
    requires { at + N ≤ length s.now }
    ensures { result ≡ firsts (λ i. get_or s.now (at + i) 0) N }
{
    let mut bytes = [0u8; N];
    for i in 0..N {
        bytes[i] = s[at + i];
    }
    bytes
}

// N bytes over those of t from the place `at` on.
pub fn put_bytes<const N: usize>(t: &mut [u8], at: usize, c: [u8; N])
    requires { at + N ≤ length t.old }
    ensures { t.new ≡ laid at N (λ i. get_or c.entry i 0) t.old }
{
    for i in 0..N {
        t[at + i] = c[i];
    }
}

pub fn block_at(s: &[u8], at: usize) -> [u8; BLOCK]
    requires { at + 64 ≤ length s.now }
    ensures { result ≡ block_of s.now at }
{
    bytes_at(s, at)
}

pub fn put_block(t: &mut [u8], at: usize, c: [u8; BLOCK])
    requires { at + 64 ≤ length t.old }
    ensures { t.new ≡ laid at 64 (λ i. get_or c i 0) t.old }
{
    put_bytes(t, at, c);
}

// The n bytes of s from the place `at` on, as the first of a block.
pub fn some_at(s: &[u8], at: usize, n: usize) -> [u8; BLOCK]
    requires { (n ≤ 64) × (at + n ≤ length s.now) }
    ensures { result ≡ laid 0 n (λ i. get_or s.now (at + i) 0) (replicate 64 0) }
{
    let mut c = [0u8; BLOCK];
    let end = at + n;
    c[..n].copy_from_slice(&s[at..end]);
    c
}

// The first n bytes of a block, laid over those of t from the place `at` on.
pub fn put_some(t: &mut [u8], at: usize, n: usize, c: [u8; BLOCK])
    requires { (n ≤ 64) × (at + n ≤ length t.old) }
    ensures { t.new ≡ laid at n (λ i. get_or c i 0) t.old }
{
    let end = at + n;
    t[at..end].copy_from_slice(&c[..n]);
}

// Each byte of t joined with the one beside it.
pub fn join_bytes(grows: bool, t: &mut [u8], b: &[u8])
    requires { length t.old ≤ length b.now }
    ensures { t.new
        ≡ laid 0 (length t.old)
        (λ i. join_packed grows (get_or t.old i 0) (get_or b.now i 0)) t.old }
{
    for i in 0..t.len() {
        t[i] = joined(grows, t[i], b[i]);
    }
}

// A block joined with the bytes of b from the place `at` on.
pub fn join_block(grows: bool, a: [u8; BLOCK], b: &[u8], at: usize) -> [u8; BLOCK]
    requires { at + 64 ≤ length b.now }
    ensures { result ≡ joined_block grows a b.now at }
{
    let mut c = a;
    for i in 0..BLOCK {
        c[i] = joined(grows, c[i], b[at + i]);
    }
    c
}

// Eight points from d points past the first of byte a, which byte b follows.
fn shifted(a: u8, b: u8, d: u32) -> u8
    requires { (0 < d) × (d < 8) }
    ensures { result ≡ shifted_of a b d }
{
    (a << d) | (b >> (8 - d))
}

// A block joined with the points of b from d points past the place `at` on.
pub fn join_bits(grows: bool, a: [u8; BLOCK], b: &[u8], at: usize, d: u32) -> [u8; BLOCK]
    requires { (0 < d) × ((d < 8) × (at + 65 ≤ length b.now)) }
    ensures { result ≡ joined_bits grows a b.now at d }
{
    let mut c = a;
    for i in 0..BLOCK {
        c[i] = joined(grows, c[i], shifted(b[at + i], b[at + i + 1], d));
    }
    c
}
