// Windows of 4 and 16 values of a row of bytes, in place, a block at a time;
// and what stands at four places of it, laid over a row.
#![tactic(auto)]

ghost use Rattle.std.specs.Prelude.{◌≡◌, ◌+◌, ◌-◌, ◌*◌, ◌≤◌, length};
ghost use Rattle.basics.specs.Lists.{firsts};
ghost use Rattle.blocks.specs.Steps.Laid.{laid};
ghost use Rattle.windows.specs.Steps.Widened.{widened_by};
ghost use Rattle.bytewindows.specs.Steps.Four.{joined_four, widen_at, byte_windows, Four};

// What stands at four places of b, and at the 63 after each: one block.
fn four(grows: bool, b: &[u8], p: usize, q: usize, r: usize, s: usize) -> [u8; blocks::BLOCK]
    requires { Four p q r s 64 (length b.now) }
    ensures { result
        ≡ firsts (λ i. joined_four grows b.now (p + i) (q + i) (r + i) (s + i)) 64 }
{
    let c = blocks::block_at(b, p);
    let d = joins::join_block(false, grows, c, b, q);
    let e = joins::join_block(false, grows, d, b, r);
    joins::join_block(false, grows, e, b, s)
}

// Windows of 4 n values from windows of n, k blocks in place, ascending:
// a block reads only places from its own start on.
fn widen(grows: bool, b: &mut [u8], k: usize, n: usize)
    requires { 64 * k + 3 * n ≤ length b.old }
    ensures { b.new ≡ widened_by (widen_at grows n) k b.old }
{
    for j in 0..k {
        let i = 64 * j;
        let c = four(grows, b, i, i + n, i + 2 * n, i + 3 * n);
        blocks::put_block(b, i, c);
    }
}

// Windows of m values, 1, 4 or 16, over k blocks.
pub fn windows(grows: bool, b: &mut [u8], k: usize, m: usize)
    requires { 64 * k + 12 ≤ length b.old }
    ensures { b.new ≡ byte_windows grows k m b.old }
{
    if m <= 1 {
        return;
    }
    widen(grows, b, k, 1);
    if m <= 4 {
        return;
    }
    widen(grows, b, k, 4);
}

// The blocks of t that are whole: what stands at four places.
fn lay_blocks(grows: bool, t: &mut [u8], k: usize, b: &[u8], p: usize, q: usize, r: usize, s: usize)
    requires { (64 * k ≤ length t.old) × Four p q r s (64 * k) (length b.now) }
    ensures { t.new
        ≡ laid 0 (64 * k) (λ i. joined_four grows b.now (p + i) (q + i) (r + i) (s + i))
        t.old }
{
    for j in 0..k {
        let i = 64 * j;
        let c = four(grows, b, p + i, q + i, r + i, s + i);
        blocks::put_block(t, i, c);
    }
}

// What stands at four places of b, over the row t: a block is read of b wherever one begins in t.
pub fn lay(grows: bool, t: &mut [u8], b: &[u8], p: usize, q: usize, r: usize, s: usize)
    requires { Four p q r s (length t.old + 64) (length b.now) }
    ensures { t.new
        ≡ firsts (λ i. joined_four grows b.now (p + i) (q + i) (r + i) (s + i))
        (length t.old) }
{
    let k = t.len() / 64;
    lay_blocks(grows, t, k, b, p, q, r, s);
    let i = 64 * k;
    if i < t.len() {
        let c = four(grows, b, p + i, q + i, r + i, s + i);
        blocks::put_some(t, i, t.len() - i, c);
        return;
    }
}
