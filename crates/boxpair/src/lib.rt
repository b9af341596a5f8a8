// Two rows of a result by a rectangle, one after the other, in the room of one padded row.
#![tactic(auto)]

ghost use Rattle.std.specs.Prelude.{◌≡◌, ◌+◌, ◌*◌, ◌≤◌, ◌<◌, length, get_or};
ghost use Rattle.basics.specs.Bytes.{Bytes};
ghost use Rattle.basics.specs.Lists.{firsts};
ghost use Rattle.picture.specs.Frame.{most_pings, row_bytes};
ghost use Rattle.picture.specs.Bytes.{row_of};
ghost use Rattle.joins.specs.Steps.Joins.{depth_if};
ghost use Rattle.boxrow.specs.Steps.Along.{along_at, left_along};
ghost use Rattle.boxseen.specs.Steps.Seen.{lower_row};
ghost use Rattle.boxlaw.specs.Steps.Box.{box_row};
ghost use Rattle.boxlaw.specs.Steps.Padded.{side_of, margins_of};
ghost use Rattle.boxpair.specs.Steps.Fit.{BoxFit};
ghost use Rattle.boxpair.specs.Steps.Put.{put_row, padded_by, upper_row};

use element::Outline;

fn bytes_of(packed: bool, w: usize) -> usize
    requires { w ≤ most_pings }
    ensures { result ≡ row_bytes (depth_if packed) w }
{
    if packed { (w + 7) / 8 } else { w }
}

fn side_of(packed: bool) -> usize
    ensures { result ≡ side_of packed }
{
    if packed { 8 } else { 64 }
}

// What counts beyond the frame, at both ends of a padded row of n bytes.
fn margins(packed: bool, grows: bool, b: &mut [u8], n: usize)
    requires { (side_of packed + n + 64 ≤ length b.old) × (n ≤ most_pings) }
    ensures { b.new ≡ margins_of packed grows n b.old }
{
    let c = [blocks::beyond(grows); blocks::BLOCK];
    blocks::put_block(b, 0, c);
    blocks::put_block(b, side_of(packed) + n, c);
}

// Row y of the result; and in row z, y itself or the next, what row z sees, joined down the columns.
pub fn upper(
    packed: bool,
    grows: bool,
    s: &[u8],
    t: &mut [u8],
    b: &mut [u8],
    w: usize,
    h: usize,
    o: Outline,
    y: usize,
    z: usize,
)
    requires box_fit { BoxFit packed (length s.now) (length t.old) (length b.old) w h o }
    requires y_le_z { (y ≤ z) × ((z ≤ y + 1) × (z < h)) }
    ensures rows { t.new
        ≡ put_row (row_bytes (depth_if packed) w) y
        (put_row (row_bytes (depth_if packed) w) z t.old
        (lower_row packed grows s.now w h o y z))
        (box_row packed grows s.now w h o y) }
    ensures left { b.new
        ≡ left_along packed grows w o.origin.ping.0 o.w
        (padded_by packed grows (row_bytes (depth_if packed) w) b.old
        (upper_row packed grows s.now w h o y z)) }
{
    let origin = o.origin;
    let column = origin.ping;
    let bin = origin.bin;
    let n = bytes_of(packed, w);
    let side = side_of(packed);
    let e = side + n;
    let a = y * n;
    let m = a + n;
    let c = z * n;
    let d = c + n;
    margins(packed, grows, b, n);
    boxseen::lead(
        packed,
        grows,
        &s[..],
        &mut b[side..e],
        &mut t[c..d],
        h,
        bin.0 as usize,
        o.h,
        y,
        z,
    );
    boxrow::along(packed, grows, b, &mut t[a..m], w, column.0 as usize, o.w);
}

// Row z of the result from what row z of t sees, joined down the columns.
pub fn lower(
    packed: bool,
    grows: bool,
    t: &mut [u8],
    b: &mut [u8],
    w: usize,
    h: usize,
    o: Outline,
    z: usize,
)
    requires box_fit { BoxFit packed (length t.old) (length t.old) (length b.old) w h o }
    requires z_lt_h { z < h }
    ensures row { t.new
        ≡ put_row (row_bytes (depth_if packed) w) z t.old
        (row_of (depth_if packed) (along_at packed grows w o.origin.ping.0 o.w
        (padded_by packed grows (row_bytes (depth_if packed) w) b.old
        (firsts (λ i. get_or t.old (z * row_bytes (depth_if packed) w + i) 0)
        (row_bytes (depth_if packed) w)))) w) }
    ensures left { b.new
        ≡ left_along packed grows w o.origin.ping.0 o.w
        (padded_by packed grows (row_bytes (depth_if packed) w) b.old
        (firsts (λ i. get_or t.old (z * row_bytes (depth_if packed) w + i) 0)
        (row_bytes (depth_if packed) w))) }
    ensures known { Bytes (padded_by packed grows (row_bytes (depth_if packed) w) b.old
        (firsts (λ i. get_or t.old (z * row_bytes (depth_if packed) w + i) 0)
        (row_bytes (depth_if packed) w))) }
{
    let origin = o.origin;
    let column = origin.ping;
    let n = bytes_of(packed, w);
    let side = side_of(packed);
    let e = side + n;
    let c = z * n;
    let d = c + n;
    margins(packed, grows, b, n);
    boxrow::copy_from(&mut b[side..e], t, c);
    boxrow::along(packed, grows, b, &mut t[c..d], w, column.0 as usize, o.w);
}
