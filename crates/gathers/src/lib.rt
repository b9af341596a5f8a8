// What stands at several places of a picture's bytes, joined, where the places move on together:
// a block of 64 results at a time, or one result after another at equal steps.
#![tactic(auto)]

ghost use Rattle.std.specs.Prelude.{◌≡◌, ℕ, ◌+◌, ◌*◌, ◌≤◌, ◌<◌, length};
ghost use Rattle.basics.specs.Lists.{firsts};
ghost use Rattle.rows.specs.Steps.Fold.{start_by};
ghost use Rattle.blocks.specs.Steps.Laid.{laid};
ghost use Rattle.rooms.specs.Steps.Joined.{at_places, Reached};
ghost use Rattle.gathers.specs.Steps.Gathered.{at_all, stepped};

// What stands at all places, i bytes on: a block of it.
fn block(grows: bool, s: &[u8], i: usize, at: &[u32]) -> [u8; blocks::BLOCK]
    requires at_nonzero { 0 < length at.now }
    requires reached { Reached at.now (i + 64) (length s.now) }
    ensures { result ≡ firsts (λ m. at_all grows s.now at.now (i + m)) 64 }
{
    // the first place is taken as it stands: that saves a pass
    let mut acc = blocks::block_at(s, i + at[0] as usize);
    for j in 1..at.len() {
        let next = joins::join_block(false, grows, acc, s, i + at[j] as usize);
        acc = next;
    }
    acc
}

// n blocks of it, into those of t from the place `from` on.
fn lay_blocks(grows: bool, s: &[u8], t: &mut [u8], from: usize, n: usize, at: &[u32])
    requires at_nonzero { (0 < length at.now) × (from + 64 * n ≤ length t.old) }
    requires reached { Reached at.now (64 * n) (length s.now) }
    ensures { t.new
        ≡ laid from (64 * n) (at_all grows s.now at.now) t.old }
{
    for k in 0..n {
        let c = block(grows, s, 64 * k, at);
        blocks::put_block(t, from + 64 * k, c);
    }
}

// What stands at all places, and at those that follow, as the n bytes of t from the place `from` on.
// The last block lies over the one before.
pub fn lay(grows: bool, s: &[u8], t: &mut [u8], from: usize, n: usize, at: &[u32])
    requires at_nonzero { (0 < length at.now) × ((64 ≤ n) × (from + n ≤ length t.old)) }
    requires reached { Reached at.now n (length s.now) }
    ensures { t.new
        ≡ laid from n (at_all grows s.now at.now) t.old }
{
    lay_blocks(grows, s, t, from, n / 64, at);
    let c = block(grows, s, n - 64, at);
    blocks::put_block(t, from + (n - 64), c);
}

// What stands at all places, i bytes on: one value. There may be no place.
fn point(grows: bool, s: &[u8], i: usize, at: &[u32]) -> u8
    requires { Reached at.now (i + 1) (length s.now) }
    ensures { result
        ≡ at_places grows (start_by grows 255) s.now i at.now
        (length at.now) }
{
    let mut c = blocks::beyond(grows);
    for p in at {
        c = joins::join(false, grows, c, s[i + *p as usize]);
    }
    c
}

// What stands at all places, 0, w, 2 w, .. bytes on, at the n places a, a + w, a + 2 w, .. of t.
pub fn step(grows: bool, s: &[u8], t: &mut [u8], w: usize, a: usize, n: usize, at: &[u32])
    requires by_index { (i : ℕ) → i < n → a + i * w < length t.old }
    requires by_index_2 { (i : ℕ) → i < n → Reached at.now (i * w + 1) (length s.now) }
    ensures { t.new
        ≡ stepped a w n
        (λ i. at_places grows (start_by grows 255) s.now (i * w) at.now
        (length at.now)) t.old }
{
    for i in 0..n {
        t[a + i * w] = point(grows, s, i * w, at);
    }
}
