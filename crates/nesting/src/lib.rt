// Which echo lies inside which: the regions of a one-bit picture, listed from the outer one inwards,
// each with its depth and its points.
// The answer and every lent number are settled for all inputs.
// A region is named by its first node: 0 for the outer one, p + 1 where its first point in row order is p.
#![tactic(auto)]

ghost use Rattle.std.specs.Prelude.{◌≡◌, cond, ◌∷◌, [], ◌++◌, ◌+◌, ◌*◌, ◌^◌, ◌≤◌, ◌<◌, eqb, length, take};
ghost use Rattle.std.specs.Prelude.{drop};
ghost use Rattle.answer.specs.Answer.{told, plain};
ghost use Rattle.answer.specs.Refuse.{refuse};
ghost use Rattle.answer.specs.Lent.{unless_refused};
ghost use Rattle.regions.specs.Limits.{most_regions};
ghost use Rattle.regions.specs.Listing.{left_of, parent_of, count_of, order_from, lines_from};
ghost use Rattle.regions.specs.Listing.{listing, inner_of, regions_of};
ghost use Rattle.nesting.specs.Nesting.{frame_tests, region_tests, nest_answer, GivenBack};
ghost use Rattle.nesting.specs.Nesting.{listed, nest_left, OfRegions};
ghost use Rattle.nesting.specs.Steps.Written.{put};
ghost use Rattle.nesting.specs.Steps.Tree.{at, Labelled, Tree, Next};

use answer::{Answer, Refusal};
use picture::Depth;

// The most points of a picture whose regions are listed, and the most regions, the outer one counted.
const MOST_POINTS: usize = 16384;

const MOST_REGIONS: usize = 255;

// Element i of a list of nodes.
fn node(nodes: &[u16], i: usize) -> usize
    requires { i < length nodes.now }
    ensures { result ≡ at nodes.now i }
{
    usize::from(nodes[i])
}

// 1 where node i belongs to region r, and else 0.
fn belongs(labels: &[u16], i: usize, r: usize) -> usize
    requires { i < length labels.now }
    ensures { (result ≡ cond (eqb (at labels.now i) r) 1 0) × (result ≤ 1) }
{
    if node(labels, i) == r { 1 } else { 0 }
}

// The points of region r among the first n.
fn count(labels: &[u16], n: usize, r: usize) -> usize
    requires { (n < length labels.now) × (n < 65536) }
    ensures { result ≡ count_of (at labels.now) r n }
{
    let mut k = 0;
    for i in 0..n {
        k = k + belongs(labels, i + 1, r);
    }
    k
}

// How many regions there are but the outer one.
fn inner_regions(labels: &[u16], n: usize) -> usize
    requires { (n < length labels.now) × (n < 65536) }
    ensures { result ≡ length (inner_of (at labels.now) n) }
{
    let mut k = 0;
    for i in 0..n {
        k = k + belongs(labels, i + 1, i + 1);
    }
    k
}

// Their first nodes, in order.
fn gather(labels: &[u16], n: usize, inner: &mut [u16])
    requires { (n < length labels.now)
        × ((n < 65536) × (length (inner_of (at labels.now) n) < length inner.old)) }
    ensures { take (length (inner_of (at labels.now) n)) inner.new
        ≡ inner_of (at labels.now) n }
{
    let mut k = 0;
    for i in 0..n {
        inner[k] = (i + 1) as u16;
        k = k + belongs(labels, i + 1, i + 1);
    }
}

// The node to the left of node c; in column 0 what lies beyond.
fn left(w: usize, c: usize) -> usize
    requires { (1 ≤ w) × (1 ≤ c) }
    ensures { result ≡ left_of w c }
{
    if (c - 1) % w == 0 { 0 } else { c - 1 }
}

// The region that region c lies in.
fn parent(labels: &[u16], w: usize, c: usize) -> usize
    requires { (1 ≤ w) × ((1 ≤ c) × (c < length labels.now)) }
    ensures { result ≡ parent_of (at labels.now) w c }
{
    let l = left(w, c);
    node(labels, l)
}

// The two numbers of region number m: depth and points.
fn note(list: &mut [u32], m: usize, d: usize, c: usize)
    requires { (2 * m + 1 < length list.old) × ((d < 2 ^ 32) × ((c < 2 ^ 32) × (m < 2 ^ 32))) }
    ensures { list.new ≡ put list.old (2 * m) (d ∷ c ∷ []) }
{
    let a = 2 * m;
    list[a] = d as u32;
    list[a + 1] = c as u32;
}

// Region r and all that is inside it go to the list; m regions are listed before,
// and the number of those listed after comes back.
fn list_region(
    labels: &[u16],
    inner: &[u16],
    w: usize,
    n: usize,
    list: &mut [u32],
    m: usize,
    r: usize,
    d: usize,
) -> usize
    requires tree { Tree labels.now inner.now w n }
    requires next { Next labels.now inner.now w n (length list.old) m r d }
    ensures value { result ≡ m + length (order_from (at labels.now) w n r d) }
    ensures list_after { list.new
        ≡ put list.old (2 * m) (lines_from (at labels.now) w n r d) }
{
    let points = count(labels, n, r);
    note(list, m, d, points);
    let mut next = m + 1;
    for k in 0..inner.len() {
        let child = node(inner, k);
        if parent(labels, w, child) == r {
            next = list_region(labels, inner, w, n, list, next, child, d + 1);
        }
    }
    next
}

// All regions, from the outer one: k of them but that one.
fn list_all(labels: &[u16], w: usize, n: usize, k: usize, list: &mut [u32])
    requires labelled { Labelled labels.now w n }
    requires k_value { k ≡ length (inner_of (at labels.now) n) }
    requires k_bound { (k + 1 ≤ most_regions) × (2 * (k + 1) ≤ length list.old) }
    ensures { list.new ≡ listed (at labels.now) w n list.old }
{
    let mut inner = [0u16; 255];
    gather(labels, n, &mut inner);
    list_region(labels, &inner[..k], w, n, list, 0, 0, 0);
}

// The refusal that is known before the regions are.
fn frame_refusal(w: usize, h: usize, n: usize) -> Answer
    ensures { told result ≡ refuse (frame_tests w h n) (plain 0) }
{
    if !picture::sized(w, h) {
        return Err(Refusal::Size);
    }
    if n != picture::picture_bytes(Depth::OneBit, w, h) {
        return Err(Refusal::Source);
    }
    if MOST_POINTS < h * w {
        return Err(Refusal::Nest);
    }
    Ok(())
}

// The refusal that needs them: so many regions, and places for len numbers.
fn region_refusal(regions: usize, len: usize) -> Answer
    requires { regions ≤ 65536 }
    ensures { told result ≡ refuse (region_tests regions len) (plain 0) }
{
    if MOST_REGIONS < regions {
        return Err(Refusal::Nest);
    }
    if len < 2 * regions {
        return Err(Refusal::Room);
    }
    Ok(())
}

// The regions of a picture that is labelled, listed. How many there are.
fn list_labels(labels: &[u16], w: usize, n: usize, list: &mut [u32]) -> Result<u32, Refusal>
    requires { Labelled labels.now w n }
    ensures given_back { GivenBack
        (refuse (region_tests (regions_of (at labels.now) n) (length list.old)) (plain 0))
        (regions_of (at labels.now) n) result }
    ensures list_after { list.new ≡ unless_refused
        (refuse (region_tests (regions_of (at labels.now) n) (length list.old)) (plain 0))
        list.old (listed (at labels.now) w n list.old) }
{
    let k = inner_regions(labels, n);
    region_refusal(k + 1, list.len())?;
    list_all(labels, w, n, k, list);
    Ok((k + 1) as u32)
}

// The regions of a one-bit picture, listed: of each its depth and its points. How many there are.
pub fn nest(w: usize, h: usize, source: &[u8], list: &mut [u32]) -> Result<u32, Refusal>
    ensures back { OfRegions source.now w h (λ R. GivenBack
        (nest_answer R w h (length source.now) (length list.old))
        (regions_of R (h * w)) result) }
    ensures numbers { OfRegions source.now w h (λ R. list.new
        ≡ nest_left R w h (length source.now) list.old) }
{
    frame_refusal(w, h, source.len())?;
    let mut labels = [0u16; 16385];
    labels::label(source, w, h, &mut labels);
    list_labels(&labels, w, h * w, list)
}
