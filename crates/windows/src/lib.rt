// Windows of 4 and 16 points of a packed row, in place, a block at a time;
// and what stands at several places of it, joined into a row.
#![tactic(auto)]

ghost use Rattle.std.specs.Prelude.{◌≡◌, ◌+◌, ◌-◌, ◌*◌, ◌/◌, ◌≤◌, ◌<◌, eqb, length};
ghost use Rattle.basics.specs.Lists.{firsts};
ghost use Rattle.windows.specs.Steps.Widened.{widen_by, widened_by, windows_of};
ghost use Rattle.windows.specs.Steps.Places.{place_joined, places_joined, gathered_at, blocks_of};
ghost use Rattle.windows.specs.Steps.Places.{joined_row, Reached};

// Windows of 4 points from single ones, or of 16 from windows of M = 4: one block.
fn widened<const M: usize>(grows: bool, b: &[u8], i: usize) -> [u8; blocks::BLOCK]
    requires { i + 66 ≤ length b.now }
    ensures { result ≡ firsts (λ j. widen_by grows (eqb M 4) b.now (i + j)) 64 }
{
    let c = blocks::block_at(b, i);
    if M == 4 {
        let d = blocks::join_bits(grows, c, b, i, 4);
        let e = blocks::join_block(grows, d, b, i + 1);
        return blocks::join_bits(grows, e, b, i + 1, 4);
    }
    let d = blocks::join_bits(grows, c, b, i, 1);
    let e = blocks::join_bits(grows, d, b, i, 2);
    blocks::join_bits(grows, e, b, i, 3)
}

// n blocks in place, ascending: a block reads only places from its own start on.
// Of the constant, either is a loop of its own, which is taken into its caller.
fn widen<const M: usize>(grows: bool, b: &mut [u8], n: usize)
    requires { 64 * n + 2 ≤ length b.old }
    ensures { b.new ≡ widened_by (widen_by grows (eqb M 4)) n b.old }
{
    for k in 0..n {
        let i = 64 * k;
        let c = widened::<M>(grows, b, i);
        blocks::put_block(b, i, c);
    }
}

// Windows of m points, 1, 4 or 16, over n blocks.
pub fn windows(grows: bool, b: &mut [u8], n: usize, m: usize)
    requires { 64 * n + 2 ≤ length b.old }
    ensures { b.new ≡ windows_of grows n m b.old }
{
    if m <= 1 {
        return;
    }
    widen::<1>(grows, b, n);
    if m <= 4 {
        return;
    }
    widen::<4>(grows, b, n);
}

// A block joined with the points of b from p points past the place i on.
fn join_place(
    grows: bool,
    c: [u8; blocks::BLOCK],
    b: &[u8],
    i: usize,
    p: usize,
) -> [u8; blocks::BLOCK]
    requires { i + p / 8 + 65 ≤ length b.now }
    ensures { result ≡ place_joined grows c b.now i p }
{
    let d = (p % 8) as u32;
    if d == 0 {
        return blocks::join_block(grows, c, b, i + p / 8);
    }
    blocks::join_bits(grows, c, b, i + p / 8, d)
}

// The same at all places.
fn join_places(
    grows: bool,
    c: [u8; blocks::BLOCK],
    b: &[u8],
    i: usize,
    at: &[u8],
) -> [u8; blocks::BLOCK]
    requires { Reached at.now (i + 65) (length b.now) }
    ensures { result ≡ places_joined grows c b.now i at.now
        (length at.now) }
{
    let mut acc = c;
    for p in at {
        let next = join_place(grows, acc, b, i, usize::from(*p));
        acc = next;
    }
    acc
}

// In the first n blocks, in place and ascending, what stands at all places from each byte on.
fn gather(grows: bool, b: &mut [u8], n: usize, at: &[u8])
    requires reached { Reached at.now (64 * n + 1) (length b.old) }
    requires n_in_bounds { 64 * n ≤ length b.old }
    ensures { b.new ≡ widened_by (gathered_at grows at.now) n b.old }
{
    let c = [blocks::beyond(grows); blocks::BLOCK];
    for k in 0..n {
        let i = 64 * k;
        let e = join_places(grows, c, b, i, at);
        blocks::put_block(b, i, e);
    }
}

// What stands in b at all places, joined into the row t. It is gathered in b itself, which takes no room.
pub fn join_row(grows: bool, t: &mut [u8], b: &mut [u8], at: &[u8])
    requires reached { Reached at.now (64 * blocks_of (length t.old) + 1) (length b.old) }
    requires t_in_bounds { 64 * blocks_of (length t.old) ≤ length b.old }
    ensures t_after { t.new
        ≡ joined_row grows b.old at.now t.old }
    ensures b_after { b.new
        ≡ widened_by (gathered_at grows at.now) (blocks_of (length t.old))
        b.old }
{
    let n = t.len();
    gather(grows, b, (n + 63) / 64, at);
    blocks::join_bytes(grows, t, b);
}
