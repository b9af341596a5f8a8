// Windows of 4 and 16 points of a packed row, and what stands at four places of it, in place, a block at a
// time. Crate windows does as much for the one-bit row routine; rectangles have code of their own, since
// what two call is taken into neither, and the routine's stack is limited.
#![tactic(auto)]

ghost use Rattle.std.specs.Prelude.{◌≡◌, [], ◌∷◌, ◌+◌, ◌*◌, ◌/◌, ◌≤◌, length};
ghost use Rattle.basics.specs.Lists.{firsts};
ghost use Rattle.windows.specs.Steps.Widened.{widened_by, windows_of};
ghost use Rattle.windows.specs.Steps.Places.{place_joined, gathered_at};
ghost use Rattle.bytewindows.specs.Steps.Four.{Four};
ghost use Rattle.windows.specs.Steps.Widened.{widen_by};

// Windows of 4 points from single ones, or, again, of 16 from windows of 4: one block.
fn widened(grows: bool, again: bool, b: &[u8], i: usize) -> [u8; blocks::BLOCK]
    requires { i + 66 ≤ length b.now }
    ensures { result ≡ firsts (λ j. widen_by grows again b.now (i + j)) 64 }
{
    let c = blocks::block_at(b, i);
    if again {
        let d = blocks::join_bits(grows, c, b, i, 4);
        let e = blocks::join_block(grows, d, b, i + 1);
        return blocks::join_bits(grows, e, b, i + 1, 4);
    }
    let d = blocks::join_bits(grows, c, b, i, 1);
    let e = blocks::join_bits(grows, d, b, i, 2);
    blocks::join_bits(grows, e, b, i, 3)
}

// k blocks in place, ascending: a block reads only places from its own start on.
fn widen(grows: bool, again: bool, b: &mut [u8], k: usize)
    requires { 64 * k + 2 ≤ length b.old }
    ensures { b.new ≡ widened_by (widen_by grows again) k b.old }
{
    for j in 0..k {
        let i = 64 * j;
        let c = widened(grows, again, b, i);
        blocks::put_block(b, i, c);
    }
}

// Windows of m points, 1, 4 or 16, over k blocks.
pub fn windows(grows: bool, b: &mut [u8], k: usize, m: usize)
    requires { 64 * k + 2 ≤ length b.old }
    ensures { b.new ≡ windows_of grows k m b.old }
{
    if m <= 1 {
        return;
    }
    widen(grows, false, b, k);
    if m <= 4 {
        return;
    }
    widen(grows, true, b, k);
}

// A block joined with the points of b from p points past the place i on.
fn join_place(
    grows: bool,
    c: [u8; blocks::BLOCK],
    b: &[u8],
    i: usize,
    p: usize,
) -> [u8; blocks::BLOCK]
    requires { i + p / 8 + 65 ≤ length b.now }
    ensures { result ≡ place_joined grows c b.now i p }
{
    let d = (p % 8) as u32;
    if d == 0 {
        return blocks::join_block(grows, c, b, i + p / 8);
    }
    blocks::join_bits(grows, c, b, i + p / 8, d)
}

// What stands at four places, from the place i on: one block.
fn four(
    grows: bool,
    b: &[u8],
    i: usize,
    p: usize,
    q: usize,
    r: usize,
    s: usize,
) -> [u8; blocks::BLOCK]
    requires { Four (p / 8) (q / 8) (r / 8) (s / 8) (i + 65) (length b.now) }
    ensures { result
        ≡ firsts (λ j. gathered_at grows (p ∷ q ∷ r ∷ s ∷ []) b.now (i + j)) 64 }
{
    let none = [blocks::beyond(grows); blocks::BLOCK];
    let c = join_place(grows, none, b, i, p);
    let d = join_place(grows, c, b, i, q);
    let e = join_place(grows, d, b, i, r);
    join_place(grows, e, b, i, s)
}

// In the first k blocks, in place and ascending, what stands at four places from each byte on.
pub fn gather(grows: bool, b: &mut [u8], k: usize, p: usize, q: usize, r: usize, s: usize)
    requires { Four (p / 8) (q / 8) (r / 8) (s / 8) (64 * k + 1) (length b.old) }
    ensures { b.new
        ≡ widened_by (gathered_at grows (p ∷ q ∷ r ∷ s ∷ [])) k b.old }
{
    for j in 0..k {
        let i = 64 * j;
        let c = four(grows, b, i, p, q, r, s);
        blocks::put_block(b, i, c);
    }
}
