// Rooms: rows of bytes with what counts beyond the frame at both their ends, and their windows.
// A room's windows are made in the other room, and what stands at several places is joined into a row,
// a block at a time.
#![tactic(auto)]

ghost use Rattle.std.specs.Prelude.{◌≡◌, ◌+◌, ◌*◌, ◌/◌, ◌≤◌, length, get_or, replicate};
ghost use Rattle.basics.specs.Lists.{firsts};
ghost use Rattle.blocks.specs.Steps.Laid.{laid};
ghost use Rattle.rooms.specs.Steps.Lanes.{Way, Joins, bytes_way, bytes_join, four_at, widened_to, Apart};
ghost use Rattle.rooms.specs.Steps.Lanes.{place_joined, places_joined, row_joined, Within};

use blocks::BLOCK;

// What two depths have of their own where rows are joined: how a block is joined with what stands at a place.
pub trait Lane {
    ghost way: { Way };

    // A block joined with what stands in b p places past its bytes, the first of which is byte i.
    fn join_place(grows: bool, c: [u8; BLOCK], b: &[u8], i: usize, p: usize) -> [u8; BLOCK]
        requires { i + way.reach p + 64 ≤ length b.now }
        ensures { result ≡ place_joined way grows c b.now i p };

    ghost joins: { Joins way };
}

// Bytes of one value each.
pub struct Bytes;

impl Lane for Bytes {
    ghost way = { bytes_way };

    ghost joins = { bytes_join };

    fn join_place(grows: bool, c: [u8; BLOCK], b: &[u8], i: usize, p: usize) -> [u8; BLOCK] {
        joins::join_block(false, grows, c, b, i + p)
    }
}

// ---- windows

// One block of windows: bytes and what stands d, e and f places past them.
fn widened<L: Lane>(grows: bool, b: &[u8], i: usize, d: usize, e: usize, f: usize) -> [u8; BLOCK]
    requires first { i + L.way.reach d + 64 ≤ length b.now }
    requires second { i + L.way.reach e + 64 ≤ length b.now }
    requires third { i + L.way.reach f + 64 ≤ length b.now }
    ensures { result ≡ firsts (λ j. four_at L.way grows b.now d e f (i + j)) 64 }
{
    let c = blocks::block_at(b, i);
    let x = L::join_place(grows, c, b, i, d);
    let y = L::join_place(grows, x, b, i, e);
    L::join_place(grows, y, b, i, f)
}

// n bytes of windows, from one room into another: blocks, the last of which ends with them.
pub fn widen<L: Lane>(
    grows: bool,
    b: &mut [u8],
    from: usize,
    to: usize,
    n: usize,
    d: usize,
    e: usize,
    f: usize,
)
    requires { Apart L.way (length b.old) from to n d e f }
    ensures { b.new ≡ widened_to L.way grows from to n d e f b.old }
{
    let last = n.saturating_sub(BLOCK);
    for k in 0..n.div_ceil(BLOCK) {
        let i = last.min(BLOCK * k);
        let c = widened::<L>(grows, b, from + i, d, e, f);
        blocks::put_block(b, to + i, c);
    }
}

// ---- what stands at several places

// A block joined with what stands in b at all places, i bytes on.
fn join_places<L: Lane>(grows: bool, c: [u8; BLOCK], b: &[u8], i: usize, at: &[u16]) -> [u8; BLOCK]
    requires { Within L.way at.now (i + 64) (length b.now) }
    ensures { result ≡ places_joined L.way grows c b.now i at.now (length at.now) }
{
    let mut acc = c;
    for p in at {
        let next = L::join_place(grows, acc, b, i, usize::from(*p));
        acc = next;
    }
    acc
}

// The same in a row of a block and more. The last block lies over the one before, so that it ends with the
// row: a join that is repeated changes nothing.
fn join_blocks<L: Lane>(grows: bool, t: &mut [u8], b: &[u8], at: &[u16])
    requires in_bounds { 64 ≤ length t.old }
    requires reached { Within L.way at.now (length t.old) (length b.now) }
    ensures { t.new
        ≡ row_joined L.way grows b.now at.now t.old }
{
    let last = t.len() - BLOCK;
    for k in 0..t.len().div_ceil(BLOCK) {
        let i = last.min(BLOCK * k);
        let c = blocks::block_at(t, i);
        let e = join_places::<L>(grows, c, b, i, at);
        blocks::put_block(t, i, e);
    }
}

// n bytes from the place `at` on, as the first of a block.
pub fn some_at(s: &[u8], at: usize, n: usize) -> [u8; BLOCK]
    requires { (n ≤ 64) × (at + n ≤ length s.now) }
    ensures { result ≡ laid 0 n (λ i. get_or s.now (at + i) 0) (replicate 64 0) }
{
    let mut c = [0u8; BLOCK];
    for i in 0..n {
        c[i] = s[at + i];
    }
    c
}

// The first n bytes of a block, laid over those of t from the place `at` on.
pub fn put_some(t: &mut [u8], at: usize, n: usize, c: [u8; BLOCK])
    requires { (n ≤ 64) × (at + n ≤ length t.old) }
    ensures { t.new ≡ laid at n (λ i. get_or c i 0) t.old }
{
    for m in 0..n {
        t[at + m] = c[m];
    }
}

// The same in a row of less than a block.
fn join_short<L: Lane>(grows: bool, t: &mut [u8], b: &[u8], at: &[u16])
    requires t_len_bound { length t.old ≤ 64 }
    requires reached { Within L.way at.now 64 (length b.now) }
    ensures { t.new
        ≡ row_joined L.way grows b.now at.now t.old }
{
    let n = t.len();
    let mut a = some_at(t, 0, n);
    join_blocks::<L>(grows, &mut a, b, at);
    put_some(t, 0, n, a);
}

// What stands in b at all places, joined into the row t.
pub fn join_row<L: Lane>(grows: bool, t: &mut [u8], b: &[u8], at: &[u16])
    requires { Within L.way at.now ((length t.old + 63) / 64 * 64) (length b.now) }
    ensures { t.new
        ≡ row_joined L.way grows b.now at.now t.old }
{
    if BLOCK <= t.len() {
        join_blocks::<L>(grows, t, b, at);
    } else if 0 < t.len() {
        join_short::<L>(grows, t, b, at);
    }
}
