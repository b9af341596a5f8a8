// Blocks of a row joined with what the cells of a weighted element find, with nothing that holds the ends.
// A value at the end that is not held makes no more than the size of a height: where all values of a block
// come out beyond the sizes, none of them was made so. From the first block that shows one, ends are held.
#![tactic(auto)]

ghost use Rattle.std.specs.Prelude.{◌≡◌, true, false, ◌+◌, ◌-◌, ◌*◌, ◌/◌, ◌≤◌, ◌<◌, length, get_or};
ghost use Rattle.basics.specs.Lists.{firsts};
ghost use Rattle.picture.specs.Frame.{most_pings};
ghost use Rattle.rows.specs.Steps.Fold.{join_by};
ghost use Rattle.blocks.specs.Steps.Laid.{laid};
ghost use Rattle.weighblocks.specs.Steps.Cells.{both_at, weighed_row, Near, Near2};
ghost use Rattle.freeblocks.specs.Steps.Plain.{plain_by, plain_block, plain_cells, turned_by};
ghost use Rattle.freeblocks.specs.Steps.Plain.{Far, Sure, Under, least_of, sure_of};

const WIDE: usize = 128;

// A sum or a difference held to 0..255, which is compiled to one instruction.
fn plain(up: bool, g: u8, v: u8) -> u8
    ensures { result ≡ plain_by up g v }
{
    if up {
        v.saturating_add(g)
    } else {
        v.saturating_sub(g)
    }
}

fn joined(grows: bool, up: bool, a: u8, g: u8, v: u8) -> u8
    ensures { result ≡ join_by grows a (plain_by up g v) }
{
    joins::join(false, grows, a, plain(up, g, v))
}

// Two blocks joined with what one cell finds from the place `at` on. Crate weighblocks does the same with one
// block and ends that are held: one loop for both would have to be handed what a cell makes of a value.
fn join_cell(grows: bool, up: bool, a: [u8; WIDE], b: &[u8], at: usize, g: u8) -> [u8; WIDE]
    requires { at + 128 ≤ length b.now }
    ensures { result ≡ plain_block grows up a b.now at g }
{
    let mut c = a;
    for i in 0..WIDE {
        c[i] = joined(grows, up, c[i], g, b[at + i]);
    }
    c
}

// The same with what all cells find, i bytes on.
fn join_cells(grows: bool, up: bool, c: [u8; WIDE], b: &[u8], i: usize, cells: &[u16]) -> [u8; WIDE]
    requires { (i + 256 ≤ length b.now) × Near cells.now }
    ensures { result ≡ firsts
        (λ m. plain_cells grows up (get_or c m 0) b.now (i + m) cells.now
        (length cells.now)) 128 }
{
    let mut acc = c;
    for k in cells {
        let next = join_cell(
            grows,
            up,
            acc,
            b,
            i + ((*k / 256) as usize),
            (*k % 256) as u8,
        );
        acc = next;
    }
    acc
}

// How far a value is from the end that has to be held.
fn turned(grows: bool, v: u8) -> u8
    ensures { result ≡ turned_by grows v }
{
    if grows { v } else { 255 - v }
}

fn least_of(grows: bool, c: [u8; WIDE]) -> u8
    ensures { Far grows c result }
{
    let mut w = 255u8;
    for i in 0..WIDE {
        w = w.min(turned(grows, c[i]));
    }
    w
}

// Whether some value is nearer to the end than the limit, which is 0 where no cell raises.
fn shows(grows: bool, c: [u8; WIDE], limit: usize) -> bool
    ensures { result ≡ false → Far grows c limit }
{
    if limit == 0 {
        return false;
    }
    (least_of(grows, c) as usize) < limit
}

fn most_of(cells: &[u16]) -> u8
    ensures { Under cells.now (result + 1) }
{
    let mut g = 0u8;
    for k in cells {
        g = g.max((*k % 256) as u8);
    }
    g
}

// What is above the size of every cell; 0 where no end has to be looked for.
fn limit_of(sure: bool, cells: &[u16]) -> usize
    ensures { sure ≡ false → Under cells.now result }
{
    if sure {
        return 0;
    }
    if cells.len() == 0 {
        return 0;
    }
    (most_of(cells) as usize) + 1
}

// As many of the first n pairs of blocks as show no end, joined with what both lists of cells find;
// it gives how many they are. In a row that is sure none shows one.
fn join_free(
    grows: bool,
    sure: bool,
    t: &mut [u8],
    n: usize,
    b: &[u8],
    rising: &[u16],
    others: &[u16],
    limit: usize,
) -> usize
    requires n_in_bounds { (128 * n ≤ length t.old) × (128 * n ≤ most_pings) }
    requires b_len { (length b.now ≡ 1152) × Near2 rising.now others.now }
    requires sure { (sure ≡ true → Sure grows n t.old) × Under rising.now 128 }
    requires under { sure ≡ false → Under rising.now limit }
    ensures few { result ≤ n }
    ensures bytes { t.new ≡ laid 0 (128 * result)
        (λ m. both_at grows (get_or t.old m 0) b.now m
        rising.now others.now) t.old }
{
    for k in 0..n {
        let i = WIDE * k;
        let c = blocks::bytes_at(t, i);
        let x = join_cells(grows, grows, c, b, i, rising);
        let d = join_cells(grows, !grows, x, b, i, others);
        if shows(grows, d, limit) {
            return k;
        }
        blocks::put_bytes(t, i, d);
    }
    n
}

// The blocks of t from the block `from` on, up to the block n, joined with the ends held.
fn join_held(
    grows: bool,
    t: &mut [u8],
    from: usize,
    n: usize,
    b: &[u8],
    rising: &[u16],
    others: &[u16],
)
    requires from_le_n { (from ≤ n) × ((64 * n ≤ length t.old) × (64 * n ≤ most_pings)) }
    requires b_len { (length b.now ≡ 1152) × Near2 rising.now others.now }
    ensures { t.new ≡ laid (64 * from) (64 * n - 64 * from)
        (λ m. both_at grows (get_or t.old (64 * from + m) 0) b.now
        (64 * from + m) rising.now others.now) t.old }
{
    for k in from..n {
        let i = 64 * k;
        let c = blocks::block_at(t, i);
        let d = weighblocks::join_both(grows, c, b, i, rising, others);
        blocks::put_block(t, i, d);
    }
}

// How near the first n values of a row come to the end.
fn least_in(grows: bool, t: &[u8], n: usize) -> u8
    requires { n ≤ length t.now }
    ensures { result ≡ least_of grows t.now n }
{
    let mut w = 255u8;
    for i in 0..n {
        w = w.min(turned(grows, t[i]));
    }
    w
}

// Whether no value of a row's pairs of blocks is nearer to the end than 128.
pub fn is_sure(grows: bool, t: &[u8]) -> bool
    ensures { result ≡ sure_of grows t.now }
{
    128 <= least_in(grows, t, WIDE * (t.len() / WIDE))
}

// What the cells of an element row find in a row of values b, joined into the row t.
// With `bold` as many blocks as show no end go without what holds it; a row that is sure needs no look.
pub fn join_row(
    grows: bool,
    bold: bool,
    sure: bool,
    t: &mut [u8],
    b: &[u8],
    rising: &[u16],
    others: &[u16],
)
    requires t_len_bound { length t.old ≤ most_pings }
    requires b_len { (length b.now ≡ 1152) × Near2 rising.now others.now }
    requires sure { (sure ≡ true → Sure grows (length t.old / 128) t.old) × Under rising.now 128 }
    ensures { t.new
        ≡ weighed_row grows b.now rising.now others.now
        t.old }
{
    if !bold {
        weighblocks::join_row(grows, t, b, rising, others);
        return;
    }
    let k = join_free(
        grows,
        sure,
        t,
        t.len() / WIDE,
        b,
        rising,
        others,
        limit_of(sure, rising),
    );
    let n = t.len() / 64;
    join_held(grows, t, 2 * k, n, b, rising, others);
    weighblocks::join_rest(grows, t, 64 * n, b, rising, others);
}
