// The rows of a packed picture joined down its columns, in place and eight points at a time:
// each with the rows that follow it, or for dilation with those before it.
#![tactic(auto)]

ghost use Rattle.std.specs.Prelude.{◌≡◌, ◌+◌, ◌-◌, ◌*◌, ◌≤◌, ◌<◌, length};
ghost use Rattle.picture.specs.declared.Depth.TheVariants.{OneBit};
ghost use Rattle.picture.specs.Frame.{most_bins, frame};
ghost use Rattle.picture.specs.Points.{value_at};
ghost use Rattle.picture.specs.Bytes.{written};
ghost use Rattle.morphology.specs.Operations.{flat};
ghost use Rattle.rows.specs.Steps.Ways.{swept_by};
ghost use Rattle.sizes.specs.Spectrum.{rect};
ghost use Rattle.rowruns.specs.Steps.Pieces.{start_of, put_of, piece_of, Rows};

// Of n bytes, c of them done, where the next m begin: erosion goes from the first byte on and dilation from
// the last one back, so that nothing is read that was written.
fn start(grows: bool, n: usize, c: usize, m: usize) -> usize
    requires { c + m ≤ n }
    ensures { (result ≡ start_of grows n c m) × (result + m ≤ n) }
{
    if grows { n - c - m } else { c }
}

// Where byte i joined with byte j, further on, is put: in the place of the former, or for dilation of the
// latter.
fn put_place(grows: bool, i: usize, j: usize) -> usize
    requires { i ≤ j }
    ensures { (result ≡ put_of grows i j) × (result ≤ j) }
{
    if grows { j } else { i }
}

// 64 bytes from i on, each joined with the one s further on.
fn join_block(grows: bool, t: &mut [u8], i: usize, s: usize)
    requires { i + s + 64 ≤ length t.old }
    ensures { t.new ≡ piece_of grows i s 64 t.old }
{
    let c = blocks::block_at(t, i);
    let j = i + s;
    let d = blocks::join_block(grows, c, t, j);
    let at = put_place(grows, i, j);
    blocks::put_block(t, at, d);
}

// One byte.
fn join_byte(grows: bool, t: &mut [u8], i: usize, s: usize)
    requires { i + s + 1 ≤ length t.old }
    ensures { t.new ≡ piece_of grows i s 1 t.old }
{
    let j = i + s;
    let at = put_place(grows, i, j);
    t[at] = blocks::joined(grows, t[i], t[j]);
}

// As many whole blocks of n bytes as there are. It gives how many bytes these are.
fn join_blocks(grows: bool, t: &mut [u8], s: usize, n: usize) -> usize
    requires { n + s ≤ length t.old }
    ensures { (result ≤ n) × (t.new ≡ piece_of grows (start_of grows n 0 result) s result t.old) }
{
    let count = n / blocks::BLOCK;
    for k in 0..count {
        let i = start(grows, n, blocks::BLOCK * k, blocks::BLOCK);
        join_block(grows, t, i, s);
    }
    blocks::BLOCK * count
}

// The bytes that are left after c of n.
fn join_rest(grows: bool, t: &mut [u8], s: usize, n: usize, c: usize)
    requires { (c ≤ n) × (n + s ≤ length t.old) }
    ensures { t.new ≡ piece_of grows (start_of grows n c (n - c)) s (n - c) t.old }
{
    for m in 0..n - c {
        let i = start(grows, n, c + m, 1);
        join_byte(grows, t, i, s);
    }
}

// Each of the first n bytes joined with the one s further on.
fn join_all(grows: bool, t: &mut [u8], s: usize, n: usize)
    requires { n + s ≤ length t.old }
    ensures { t.new ≡ piece_of grows 0 s n t.old }
{
    let c = join_blocks(grows, t, s, n);
    join_rest(grows, t, s, n, c);
}

// Each of h rows of n bytes joined with the row d further on, where there is one.
fn join_rows(grows: bool, t: &mut [u8], n: usize, h: usize, d: usize)
    requires { (n ≤ 128) × ((h ≤ most_bins) × (h * n ≤ length t.old)) }
    ensures { t.new ≡ piece_of grows 0 (d * n) ((h - d) * n) t.old }
{
    if h <= d {
        return;
    }
    join_all(grows, t, d * n, (h - d) * n);
}

// Runs of k rows, of h rows of n bytes: from runs of a rows those of up to 2 a, until they are of k.
pub fn runs(grows: bool, t: &mut [u8], n: usize, h: usize, k: usize)
    requires { Rows n h k (length t.old) }
    ensures { t.new
        ≡ written OneBit
        (swept_by grows flat 1 (frame (n * 8) h) (rect 1 k) (value_at OneBit t.old (n * 8)))
        (n * 8) h t.old }
{
    let mut a = 1;
    // a turn goes as far as what is done reaches, which no range counts
    while a < k {
        let d = a.min(k - a);
        join_rows(grows, t, n, h, d);
        a += d;
    }
}
