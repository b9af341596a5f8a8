// Rows of a picture joined down the columns, for two rows of a result at a time, at either depth.
#![tactic(auto)]

ghost use Rattle.std.specs.Prelude.{◌≡◌, ◌+◌, ◌*◌, ◌^◌, ◌≤◌, ◌<◌, max, length, get_or};
ghost use Rattle.basics.specs.Lists.{firsts};
ghost use Rattle.columns.specs.Steps.Down.{down_at, also_at, Pair, Inside};

// ---- rows of a block and more

// The bytes of `count` rows from row lo on, joined: the block at byte i. Rows are n bytes long.
fn down(
    packed: bool,
    grows: bool,
    s: &[u8],
    n: usize,
    i: usize,
    lo: usize,
    count: usize,
) -> [u8; blocks::BLOCK]
    requires { ((lo + count) * n + (i + 64) ≤ length s.now + n) × (1 ≤ n) }
    ensures { result ≡ firsts (λ m. down_at packed grows s.now n lo count (i + m)) 64 }
{
    let mut c = [blocks::beyond(grows); blocks::BLOCK];
    for v in 0..count {
        let next = joins::join_block(packed, grows, c, s, (lo + v) * n + i);
        c = next;
    }
    c
}

// Two rows: what both see is joined once. The last block lies over the one before, so that it ends with them.
fn pair_blocks(
    packed: bool,
    grows: bool,
    s: &[u8],
    y: &mut [u8],
    z: &mut [u8],
    first: usize,
    lo: usize,
    count: usize,
    last: usize,
)
    requires pair { Pair (length s.now) (length y.old) (length z.old) first lo count last }
    requires in_bounds { 64 ≤ length y.old }
    ensures one { y.new
        ≡ firsts (also_at packed grows s.now (length y.old) lo count first)
        (length y.old) }
    ensures other { z.new
        ≡ firsts (also_at packed grows s.now (length y.old) lo count last)
        (length y.old) }
{
    let n = y.len();
    for k in 0..(n + 63) / 64 {
        let i = (64 * k).min(n - 64);
        let c = down(packed, grows, s, n, i, lo, count);
        blocks::put_block(y, i, joins::join_block(packed, grows, c, s, first * n + i));
        blocks::put_block(z, i, joins::join_block(packed, grows, c, s, last * n + i));
    }
}

// ---- shorter rows: a block goes on into the next

// As `down` at byte 0; of its own, since what two call is taken into neither.
fn down_short(
    packed: bool,
    grows: bool,
    s: &[u8],
    n: usize,
    lo: usize,
    count: usize,
) -> [u8; blocks::BLOCK]
    requires { ((lo + count) * n + 64 ≤ length s.now + n) × (1 ≤ n) }
    ensures { result ≡ firsts (λ m. down_at packed grows s.now n lo count (0 + m)) 64 }
{
    let mut c = [blocks::beyond(grows); blocks::BLOCK];
    for v in 0..count {
        let next = joins::join_block(packed, grows, c, s, (lo + v) * n);
        c = next;
    }
    c
}

// The first bytes of a, over the row t.
fn copy_first(t: &mut [u8], a: &[u8])
    requires { length t.old ≤ length a.now }
    ensures { t.new ≡ firsts (λ i. get_or a.now i 0) (length t.old) }
{
    let n = t.len();
    t.copy_from_slice(&a[..n]);
}

// Two rows: of the block that begins with each, what is its own.
fn pair_short(
    packed: bool,
    grows: bool,
    s: &[u8],
    y: &mut [u8],
    z: &mut [u8],
    first: usize,
    lo: usize,
    count: usize,
    last: usize,
)
    requires inside { Inside (length s.now) (length y.old) 64 first lo count last }
    requires z_len { (length z.old ≡ length y.old) × ((length y.old ≤ 64) × (1 ≤ length y.old)) }
    ensures one { y.new
        ≡ firsts (also_at packed grows s.now (length y.old) lo count first)
        (length y.old) }
    ensures other { z.new
        ≡ firsts (also_at packed grows s.now (length y.old) lo count last)
        (length y.old) }
{
    let n = y.len();
    let c = down_short(packed, grows, s, n, lo, count);
    // one room for both rows, and only it is copied from: the blocks stay in registers
    let mut a = [0u8; blocks::BLOCK];
    blocks::put_block(&mut a, 0, joins::join_block(packed, grows, c, s, first * n));
    copy_first(y, &a);
    blocks::put_block(&mut a, 0, joins::join_block(packed, grows, c, s, last * n));
    copy_first(z, &a);
}

// ---- byte by byte, where a block would go past the end of the source

// The byte i of `count` rows from row lo on, joined.
fn byte_down(packed: bool, grows: bool, s: &[u8], n: usize, i: usize, lo: usize, count: usize) -> u8
    requires { ((lo + count) * n ≤ length s.now) × (i < n) }
    ensures { result ≡ down_at packed grows s.now n lo count i }
{
    let mut c = blocks::beyond(grows);
    for v in 0..count {
        c = joins::join(packed, grows, c, s[(lo + v) * n + i]);
    }
    c
}

fn pair_bytes(
    packed: bool,
    grows: bool,
    s: &[u8],
    y: &mut [u8],
    z: &mut [u8],
    first: usize,
    lo: usize,
    count: usize,
    last: usize,
)
    requires { Pair (length s.now) (length y.old) (length z.old) first lo count last }
    ensures one { y.new
        ≡ firsts (also_at packed grows s.now (length y.old) lo count first)
        (length y.old) }
    ensures other { z.new
        ≡ firsts (also_at packed grows s.now (length y.old) lo count last)
        (length y.old) }
{
    let n = y.len();
    for j in 0..n {
        let c = byte_down(packed, grows, s, n, j, lo, count);
        y[j] = joins::join(packed, grows, c, s[first * n + j]);
        z[j] = joins::join(packed, grows, c, s[last * n + j]);
    }
}

// ---- any rows

// The row past the last that is read.
fn rows_end(first: usize, lo: usize, count: usize, last: usize) -> usize
    requires { (first + 1 < 2 ^ 64) × ((last + 1 < 2 ^ 64) × (lo + count < 2 ^ 64)) }
    ensures { result ≡ max (max first last + 1) (lo + count) }
{
    (first.max(last) + 1).max(lo + count)
}

// Two rows of less than a block.
fn pair_any_short(
    packed: bool,
    grows: bool,
    s: &[u8],
    y: &mut [u8],
    z: &mut [u8],
    first: usize,
    lo: usize,
    count: usize,
    last: usize,
)
    requires pair { Pair (length s.now) (length y.old) (length z.old) first lo count last }
    requires y_len_bound { length y.old ≤ 64 }
    ensures one { y.new
        ≡ firsts (also_at packed grows s.now (length y.old) lo count first)
        (length y.old) }
    ensures other { z.new
        ≡ firsts (also_at packed grows s.now (length y.old) lo count last)
        (length y.old) }
{
    let n = y.len();
    if n == 0 {
        return;
    }
    if 64 - n <= s.len() - rows_end(first, lo, count, last) * n {
        pair_short(packed, grows, &s[..], y, z, first, lo, count, last);
        return;
    }
    pair_bytes(packed, grows, &s[..], y, z, first, lo, count, last);
}

// In y the rows `first` and lo to lo + count - 1 of s, in z these and the row `last`, joined byte by byte.
pub fn pair(
    packed: bool,
    grows: bool,
    s: &[u8],
    y: &mut [u8],
    z: &mut [u8],
    first: usize,
    lo: usize,
    count: usize,
    last: usize,
)
    requires { Pair (length s.now) (length y.old) (length z.old) first lo count last }
    ensures one { y.new
        ≡ firsts (also_at packed grows s.now (length y.old) lo count first)
        (length y.old) }
    ensures other { z.new
        ≡ firsts (also_at packed grows s.now (length y.old) lo count last)
        (length y.old) }
{
    if 64 <= y.len() {
        pair_blocks(packed, grows, &s[..], y, z, first, lo, count, last);
        return;
    }
    // a call for each way: a function with one call is taken into its caller, and its room with it
    if grows {
        pair_any_short(packed, true, &s[..], y, z, first, lo, count, last);
        return;
    }
    pair_any_short(packed, false, &s[..], y, z, first, lo, count, last);
}
