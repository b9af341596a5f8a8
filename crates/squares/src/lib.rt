// Erosion and dilation of a packed one-bit picture by a square, in place: each row by a run of cells, then
// down the columns. And how many points are set.
#![tactic(auto)]

ghost use Rattle.std.specs.Prelude.{◌≡◌, ◌++◌, ◌+◌, ◌-◌, ◌≤◌, length, get_or, replicate};
ghost use Rattle.std.specs.Int.Count.{ones};
ghost use Rattle.basics.specs.Lists.{firsts};
ghost use Rattle.picture.specs.Frame.{frame};
ghost use Rattle.picture.specs.Points.{value_at};
ghost use Rattle.picture.specs.Bytes.{row_of, written};
ghost use Rattle.morphology.specs.Operations.{fold, flat};
ghost use Rattle.rows.specs.Steps.Ways.{swept_by};
ghost use Rattle.sizes.specs.Spectrum.{rect, square};
ghost use Rattle.squares.specs.Steps.Fits.{RowFits, Fits};

use bitrow::Task;
use element::Outline;
use picture::{Bin, Depth, Ping, Point};

// The longest row.
const ROW: usize = 128;

// A row as it is, to be read while the row itself is written.
fn copy_of(t: &[u8]) -> [u8; ROW]
    requires { length t.now ≤ 128 }
    ensures { result ≡ firsts (λ i. get_or t.now i 0) (length t.now)
        ++ replicate (128 - length t.now) 0 }
{
    let mut c = [0u8; ROW];
    let n = t.len();
    c[..n].copy_from_slice(t);
    c
}

// One row by a run of k cells.
fn run_row(grows: bool, t: &mut [u8], w: usize, k: usize)
    requires { RowFits w k (length t.old) }
    ensures { t.new
        ≡ row_of Depth.OneBit
        (λ x. swept_by grows flat 1 (frame w 1) (rect k 1) (value_at Depth.OneBit t.old w) x 0) w }
{
    let n = t.len();
    let s = copy_of(&t[..]);
    let o = Outline {
        w: k,
        h: 1,
        origin: Point {
            ping: Ping(0),
            bin: Bin(0),
        },
    };
    let words = [u64::MAX; 1];
    let task = Task { over: false, grows };
    bitrow::make_row(task, t, &s[..n], w, 1, Bin(0), o, &words);
}

// Each row by a run of k cells; what lies past the picture stays.
fn run_rows(grows: bool, t: &mut [u8], w: usize, h: usize, k: usize)
    requires { Fits w h k (length t.old) }
    ensures { t.new
        ≡ written Depth.OneBit
        (swept_by grows flat 1 (frame w h) (rect k 1) (value_at Depth.OneBit t.old w))
        w h t.old }
{
    let n = picture::row_bytes(Depth::OneBit, w);
    for y in 0..h {
        let a = y * n;
        let z = a + n;
        run_row(grows, &mut t[a..z], w, k);
    }
}

// The picture in t eroded, or dilated, which grows, by the square of side k; what lies past it stays.
pub fn sweep(grows: bool, t: &mut [u8], w: usize, h: usize, k: usize)
    requires { Fits w h k (length t.old) }
    ensures { t.new
        ≡ written Depth.OneBit
        (swept_by grows flat 1 (frame w h) (square k) (value_at Depth.OneBit t.old w))
        w h t.old }
{
    run_rows(grows, t, w, h, k);
    let n = picture::row_bytes(Depth::OneBit, w);
    rowruns::runs(grows, t, n, h, k);
}

fn ones_in(b: u8) -> usize
    ensures { (result ≡ ones b) × (result ≤ 8) }
{
    u8::count_ones(b) as usize
}

// How many bits of t are set.
pub fn count(t: &[u8]) -> usize
    requires { length t.now ≤ 32768 }
    ensures { result ≡ fold ◌+◌ 0 (λ i. ones (get_or t.now i 0)) (length t.now) }
{
    let mut v = 0;
    for b in t {
        v += ones_in(*b);
    }
    v
}
