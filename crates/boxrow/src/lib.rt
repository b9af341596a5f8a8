// One row of a result by a run of cells, at either depth, from a padded row: windows along it.
#![tactic(auto)]

ghost use Rattle.std.specs.Prelude.{◌≡◌, true, false, ◌+◌, ◌≤◌, ◌<◌, length, get_or};
ghost use Rattle.basics.specs.Bytes.{Bytes};
ghost use Rattle.basics.specs.Lists.{firsts};
ghost use Rattle.picture.specs.declared.Depth.TheVariants.{OneBit, EightBit};
ghost use Rattle.picture.specs.Bytes.{row_of};
ghost use Rattle.packedline.specs.Steps.Cells.{window_of};
ghost use Rattle.joins.specs.Steps.Joins.{depth_if};
ghost use Rattle.boxrow.specs.Steps.Along.{before_of, bits_along, bytes_along, along_at};
ghost use Rattle.boxrow.specs.Steps.Along.{bits_left, bytes_left, left_along, AlongFit, RunFit};

// The windows, of 1, 4 or 16 points, of which at most four make up a run of `wide`.
fn size(wide: usize) -> usize
    ensures { result ≡ window_of wide }
{
    if wide <= 4 {
        return 1;
    }
    if wide <= 16 { 4 } else { 16 }
}

// How many cells lie before the origin, seen the way that the operation looks.
pub fn before(grows: bool, o: usize, wide: usize) -> usize
    requires { o < wide }
    ensures { result ≡ before_of grows o wide }
{
    if grows { wide - 1 - o } else { o }
}

// The bytes of t from the place `at` on, as the row.
pub fn copy_from(row: &mut [u8], t: &[u8], at: usize)
    requires { at + length row.old ≤ length t.now }
    ensures { row.new
        ≡ firsts (λ i. get_or t.now (at + i) 0) (length row.old) }
{
    for i in 0..row.len() {
        row[i] = t[at + i];
    }
}

// A packed row of w points from windows of m points at four places of the padded row b, its padding 0.
fn along_bits(
    grows: bool,
    b: &mut [u8],
    t: &mut [u8],
    w: usize,
    m: usize,
    p: usize,
    q: usize,
    r: usize,
    s: usize,
)
    requires { AlongFit true (length b.old) (length t.old) w p q r s }
    ensures row { t.new ≡ row_of OneBit (bits_along grows w m p q r s b.old) w }
    ensures known { Bytes b.old }
    ensures left { b.new ≡ bits_left grows w m p q r s b.old }
{
    let n = t.len();
    packedline::blot(grows, b, 8 + n - 1, w);
    bitwindows::windows(grows, b, (n + 81) / 64, m);
    bitwindows::gather(grows, b, (n + 63) / 64, p, q, r, s);
    copy_from(t, b, 0);
    packedline::blot(true, t, n - 1, w);
}

// The same of a row of bytes.
fn along_bytes(
    grows: bool,
    b: &mut [u8],
    t: &mut [u8],
    w: usize,
    m: usize,
    p: usize,
    q: usize,
    r: usize,
    s: usize,
)
    requires { AlongFit false (length b.old) (length t.old) w p q r s }
    ensures row { t.new ≡ row_of EightBit (bytes_along grows w m p q r s b.old) w }
    ensures known { Bytes b.old }
    ensures left { b.new ≡ bytes_left grows w m p q r s b.old }
{
    bytewindows::windows(grows, b, (w + 187) / 64, m);
    bytewindows::lay(grows, t, b, p, q, r, s);
}

// A row of w points from the padded row b, by a run of `wide` cells with the origin o.
pub fn along(packed: bool, grows: bool, b: &mut [u8], t: &mut [u8], w: usize, o: usize, wide: usize)
    requires { RunFit packed (length b.old) (length t.old) w o wide }
    ensures row { t.new
        ≡ row_of (depth_if packed) (along_at packed grows w o wide b.old) w }
    ensures known { Bytes b.old }
    ensures left { b.new ≡ left_along packed grows w o wide b.old }
{
    let m = size(wide);
    let far = wide - m;
    let p = 64 - before(grows, o, wide);
    let q = p + basics::lesser(m, far);
    let r = p + basics::lesser(m + m, far);
    let s = p + far;
    if packed {
        along_bits(grows, b, t, w, m, p, q, r, s);
        return;
    }
    along_bytes(grows, b, t, w, m, p, q, r, s);
}
