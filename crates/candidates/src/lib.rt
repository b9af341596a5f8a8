// The candidates of a search for a chain: the links that are made of what was measured of an element.
#![tactic(auto)]

ghost use Rattle.std.specs.Prelude.{◌≡◌, ◌++◌, ◌*◌, ◌≤◌, ◌<◌, length, drop};
ghost use Rattle.basics.specs.Lists.{firsts, joined};
ghost use Rattle.morphology.specs.Chain.{most_links};
ghost use Rattle.candidates.specs.Candidates.{part, Few, try_no, needed, links_of, length_of};
ghost use Rattle.candidates.specs.Candidates.{run_byte, row_byte, link_byte};

use hulls::Hull;
use reach::MOST_LINKS;

// A candidate: how much of a side, of an origin and of a cut a link takes at the most;
// or the element's own cells as the one link.
#[derive(Clone, Copy)]
pub struct Try {
    pub side: usize,
    pub origin: usize,
    pub cut: usize,
    pub own: bool,
}

// Candidate t: the element's own cells; a box in links as wide and high as can be;
// then a box with its corners cut, in links of each size, with each share of the origin and of the cuts.
pub fn try_no(t: usize) -> Try
    ensures { (result ≡ try_no t) × Few result }
{
    if t == 0 {
        return Try {
            side: 7,
            origin: 7,
            cut: 0,
            own: true,
        };
    }
    if t == 1 {
        return Try {
            side: 7,
            origin: 7,
            cut: 0,
            own: false,
        };
    }
    let share = 7usize.saturating_sub((t - 2) % 7);
    Try {
        side: 7usize.saturating_sub((t - 2) / 7),
        origin: share,
        cut: share,
        own: false,
    }
}

// What link i takes of x, at most `most` for each link.
fn part(most: usize, x: usize, i: usize) -> usize
    requires { (most ≤ 7) × (i ≤ most_links) }
    ensures { (result ≡ part most x i) × (result ≤ 7) }
{
    most.min(x.saturating_sub(most * i))
}

// How many links of `most` each a side of n needs: five at the most.
fn needed(most: usize, n: usize) -> usize
    requires { most ≤ 7 }
    ensures { (result ≡ needed most n) × (result ≤ most_links) }
{
    if n <= most {
        return 1;
    }
    if n <= 2 * most {
        return 2;
    }
    if n <= 3 * most {
        return 3;
    }
    if n <= 4 * most {
        return 4;
    }
    MOST_LINKS
}

// The links of a candidate.
pub fn links_of(hull: Hull, c: Try) -> usize
    requires { Few c }
    ensures { (result ≡ links_of hull c) × (result ≤ most_links) }
{
    if c.own {
        return 1;
    }
    let across = hull.across;
    let down = hull.down;
    needed(c.side, across.span.max(down.span))
}

// The bytes of each of its links.
pub fn length_of(hull: Hull, c: Try) -> usize
    requires { Few c }
    ensures { (result ≡ length_of hull c) × (result ≤ 12) }
{
    let down = hull.down;
    4 + (c.side.min(down.span) + 1)
}

// The cells first to last of a row of a link.
fn run_byte(first: usize, last: usize) -> u8
    ensures { result ≡ run_byte first last }
{
    let heads = [255u8, 127, 63, 31, 15, 7, 3, 1];
    let tails = [128u8, 192, 224, 240, 248, 252, 254, 255];
    if last < first {
        return 0;
    }
    if 7 < last {
        return 0;
    }
    heads[first] & tails[last]
}

// Row r of link i: a box with its corners cut.
fn row_byte(hull: Hull, c: Try, i: usize, r: usize) -> u8
    requires { Few c × (i ≤ most_links) }
    ensures { result ≡ row_byte hull c i r }
{
    let across = hull.across;
    let down = hull.down;
    let upper = part(c.side, down.first, i);
    let lower = part(c.side, down.last, i);
    if r < upper {
        return 0;
    }
    if lower < r {
        return 0;
    }
    let from = part(c.side, across.first, i);
    let to = part(c.side, across.last, i);
    let ul = part(c.cut, hull.nw, i).saturating_sub(r - upper);
    let ll = part(c.cut, hull.sw, i).saturating_sub(lower - r);
    let ur = part(c.cut, hull.ne, i).saturating_sub(r - upper);
    let lr = part(c.cut, hull.se, i).saturating_sub(lower - r);
    run_byte(from + ul.max(ll), to.saturating_sub(ur.max(lr)))
}

// Byte j of link i.
fn link_byte(hull: Hull, c: Try, i: usize, j: usize) -> u8
    requires { Few c × ((i ≤ most_links) × (j < 12)) }
    ensures { result ≡ link_byte hull c i j }
{
    let across = hull.across;
    let down = hull.down;
    if j == 0 {
        return (c.side.min(across.span) + 1) as u8;
    }
    if j == 1 {
        return (c.side.min(down.span) + 1) as u8;
    }
    if j == 2 {
        return part(c.origin, across.origin, i) as u8;
    }
    if j == 3 {
        return part(c.origin, down.origin, i) as u8;
    }
    if c.own {
        let own = hull.own;
        return own[j - 4];
    }
    row_byte(hull, c, i, j - 4)
}

// Link i, in bytes that are lent for it.
fn put_link(t: &mut [u8], hull: Hull, c: Try, i: usize)
    requires { Few c × ((i ≤ most_links) × (length t.old ≤ 12)) }
    ensures { t.new ≡ firsts (link_byte hull c i) (length t.old) }
{
    for j in 0..t.len() {
        t[j] = link_byte(hull, c, i, j);
    }
}

// k links of m bytes each, one after another.
pub fn put_links(t: &mut [u8], hull: Hull, c: Try, k: usize, m: usize)
    requires { Few c × ((k ≤ most_links) × ((m ≤ 12) × (k * m ≤ length t.old))) }
    ensures { t.new
        ≡ joined (λ i. firsts (link_byte hull c i) m) k ++ drop (k * m) t.old }
{
    for i in 0..k {
        let at = i * m;
        let end = at + m;
        put_link(&mut t[at..end], hull, c, i);
    }
}
