// Blocks of a row joined with what the cells of a weighted element find, all cells of an element row at once.
// Cells that raise and cells that do not come apart, so that no test of a sign is left in a loop.
#![tactic(auto)]

ghost use Rattle.std.specs.Prelude.{◌≡◌, cond, ◌+◌, ◌-◌, ◌*◌, ◌/◌, ◌%◌, ◌≤◌, ◌<◌, min, eqb, length};
ghost use Rattle.std.specs.Prelude.{get_or};
ghost use Rattle.basics.specs.Lists.{firsts};
ghost use Rattle.picture.specs.Frame.{most_pings};
ghost use Rattle.rows.specs.Steps.Fold.{join_by};
ghost use Rattle.blocks.specs.Steps.Laid.{laid};
ghost use Rattle.weighblocks.specs.Steps.Lift.{lift_by};
ghost use Rattle.weighblocks.specs.Steps.Cells.{cell_block, at_cells, both_at, weighed_row, Near, Near2};

// The longest row with 64 places beyond the frame at each end.
pub const ROOM: usize = 1152;

// A sum and a difference held to 0..255, which are compiled to one instruction.
fn more(g: u8, v: u8) -> u8
    ensures { result ≡ min 255 (v + g) }
{
    v.saturating_add(g)
}

fn less(g: u8, v: u8) -> u8
    ensures { result ≡ v - g }
{
    v.saturating_sub(g)
}

// The same where a value at the end stays there: 0 in a dilation, 255 in an erosion.
fn more_but_end(g: u8, v: u8) -> u8
    ensures { result ≡ cond (eqb v 0) 0 (min 255 (v + g)) }
{
    if v == 0 { 0 } else { more(g, v) }
}

fn less_but_end(g: u8, v: u8) -> u8
    ensures { result ≡ cond (eqb v 255) 255 (v - g) }
{
    if v == 255 { 255 } else { less(g, v) }
}

// What a cell makes of a value v by the size g of its height, where the height's sign is known.
fn lifted(grows: bool, rises: bool, g: u8, v: u8) -> u8
    ensures { result ≡ lift_by grows rises g v }
{
    if grows {
        if rises {
            return more_but_end(g, v);
        }
        return less(g, v);
    }
    if rises {
        return less_but_end(g, v);
    }
    more(g, v)
}

fn joined(grows: bool, rises: bool, a: u8, g: u8, v: u8) -> u8
    ensures { result ≡ join_by grows a (lift_by grows rises g v) }
{
    joins::join(false, grows, a, lifted(grows, rises, g, v))
}

// A block joined with what one cell finds from the place `at` on.
fn join_cell(
    grows: bool,
    rises: bool,
    a: [u8; blocks::BLOCK],
    b: &[u8],
    at: usize,
    g: u8,
) -> [u8; blocks::BLOCK]
    requires { at + 64 ≤ length b.now }
    ensures { result ≡ cell_block grows rises a b.now at g }
{
    let mut c = a;
    for i in 0..blocks::BLOCK {
        c[i] = joined(grows, rises, c[i], g, b[at + i]);
    }
    c
}

// A cell is one number: the size of its height, and 256 times its place.
fn place_of(k: u16) -> usize
    ensures { result ≡ k / 256 }
{
    (k / 256) as usize
}

fn size_of(k: u16) -> u8
    ensures { result ≡ k % 256 }
{
    (k % 256) as u8
}

// A block joined with what all cells find, i bytes on.
fn join_cells(
    grows: bool,
    rises: bool,
    c: [u8; blocks::BLOCK],
    b: &[u8],
    i: usize,
    cells: &[u16],
) -> [u8; blocks::BLOCK]
    requires { (i + 192 ≤ length b.now) × Near cells.now }
    ensures { result ≡ firsts
        (λ m. at_cells grows rises (get_or c m 0) b.now (i + m)
        cells.now (length cells.now)) 64 }
{
    let mut acc = c;
    for k in cells {
        let next = join_cell(grows, rises, acc, b, i + place_of(*k), size_of(*k));
        acc = next;
    }
    acc
}

// The cells that raise, then those that do not.
pub fn join_both(
    grows: bool,
    c: [u8; blocks::BLOCK],
    b: &[u8],
    i: usize,
    rising: &[u16],
    others: &[u16],
) -> [u8; blocks::BLOCK]
    requires { (i + 192 ≤ length b.now) × Near2 rising.now others.now }
    ensures { result ≡ firsts
        (λ m. both_at grows (get_or c m 0) b.now (i + m)
        rising.now others.now) 64 }
{
    let x = join_cells(grows, true, c, b, i, rising);
    join_cells(grows, false, x, b, i, others)
}

// The same in the first n blocks of the row t.
fn join_blocks(grows: bool, t: &mut [u8], n: usize, b: &[u8], rising: &[u16], others: &[u16])
    requires n_in_bounds { (64 * n ≤ length t.old) × (64 * n ≤ most_pings) }
    requires b_len { (length b.now ≡ 1152) × Near2 rising.now others.now }
    ensures { t.new ≡ laid 0 (64 * n)
        (λ m. both_at grows (get_or t.old m 0) b.now m
        rising.now others.now) t.old }
{
    for k in 0..n {
        let i = 64 * k;
        let c = blocks::block_at(t, i);
        let d = join_both(grows, c, b, i, rising, others);
        blocks::put_block(t, i, d);
    }
}

// The bytes of the row from i on, fewer than a block.
pub fn join_rest(grows: bool, t: &mut [u8], i: usize, b: &[u8], rising: &[u16], others: &[u16])
    requires i_in_bounds { (i ≤ length t.old) × (length t.old < i + 64) }
    requires i_bound { i < length t.old → i ≤ 960 }
    requires b_len { (length b.now ≡ 1152) × Near2 rising.now others.now }
    ensures { t.new ≡ laid i (length t.old - i)
        (λ m. both_at grows (get_or t.old (i + m) 0) b.now (i + m)
        rising.now others.now) t.old }
{
    if t.len() <= i {
        return;
    }
    let n = t.len() - i;
    let c = blocks::some_at(t, i, n);
    let d = join_both(grows, c, b, i, rising, others);
    blocks::put_some(t, i, n, d);
}

// What the cells of an element row find in a row of values b, joined into the row t.
pub fn join_row(grows: bool, t: &mut [u8], b: &[u8], rising: &[u16], others: &[u16])
    requires t_len_bound { length t.old ≤ most_pings }
    requires b_len { (length b.now ≡ 1152) × Near2 rising.now others.now }
    ensures { t.new
        ≡ weighed_row grows b.now rising.now others.now
        t.old }
{
    let n = t.len() / 64;
    join_blocks(grows, t, n, b, rising, others);
    join_rest(grows, t, 64 * n, b, rising, others);
}
