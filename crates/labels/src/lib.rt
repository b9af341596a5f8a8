// The regions of a one-bit picture found: each point is united with its like neighbours, in one scan,
// and then each node has the first of its region under it.
// Node 0 is what lies beyond the frame, node p + 1 is point p in row order.
#![tactic(auto)]

ghost use Rattle.std.specs.Prelude.{◌≡◌, ◌*◌, ◌≤◌, ◌<◌, length};
ghost use Rattle.regions.specs.Regions.{point_of};
ghost use Rattle.mates.specs.Steps.Framed.{Framed, Places};
ghost use Rattle.regions.specs.Steps.Union.{root_of, united};
ghost use Rattle.regions.specs.Steps.Union.{point_united, united_to, flat_to, alone};
ghost use Rattle.regions.specs.Steps.Union.{labelled};

// Down to the root.
fn root(up: &[u16], i: usize) -> usize
    requires { i < length up.now }
    ensures { result ≡ root_of up.now i }
{
    // Each step goes where the last one found, so that there is nothing to count.
    let mut j = i;
    while usize::from(up[j]) < j {
        j = usize::from(up[j]);
    }
    j
}

// The lesser of two roots goes under the greater.
#[tactic(auto, using(regions::proofs::Join::root_low, regions::proofs::Join::unite_is))]
fn unite(up: &mut [u16], a: usize, b: usize)
    requires { (a < length up.old) × ((b < length up.old) × (length up.old ≤ 65536)) }
    ensures { up.new ≡ united up.old a b }
{
    let p = root(&up[..], a);
    let q = root(&up[..], b);
    up[p.max(q)] = p.min(q) as u16;
}

// Point i is united with its mates.
fn unite_point(s: &[u8], w: usize, h: usize, up: &mut [u16], i: usize)
    requires framed { Framed (length s.now) w h }
    requires places { Places (length up.old) w h }
    requires i_bound { i < h * w }
    ensures { up.new ≡ point_united (point_of s.now w) w h up.old i }
{
    for k in 0..5 {
        let m = mates::mate(s, w, h, i, k);
        unite(up, i + 1, m);
    }
}

// Every point is united with its mates.
fn unite_points(s: &[u8], w: usize, h: usize, up: &mut [u16])
    requires framed { Framed (length s.now) w h }
    requires places { Places (length up.old) w h }
    ensures { up.new ≡ united_to (point_of s.now w) w h up.old (h * w) }
{
    let n = h * w;
    for i in 0..n {
        unite_point(s, w, h, up, i);
    }
}

// Each of the first n nodes under itself.
fn part(up: &mut [u16], n: usize)
    requires { (n ≤ length up.old) × (n ≤ 65536) }
    ensures { up.new ≡ alone up.old n }
{
    for i in 0..n {
        up[i] = i as u16;
    }
}

// The root of each of the first n nodes goes under it.
fn flatten(up: &mut [u16], n: usize)
    requires { (n ≤ length up.old) × (n ≤ 65536) }
    ensures { up.new ≡ flat_to up.old n }
{
    for i in 0..n {
        let r = root(&up[..], i);
        up[i] = r as u16;
    }
}

// The first node of each node's region.
pub fn label(s: &[u8], w: usize, h: usize, up: &mut [u16])
    requires framed { Framed (length s.now) w h }
    requires places { Places (length up.old) w h }
    ensures { up.new ≡ labelled s.now w h up.old }
{
    let n = h * w + 1;
    part(up, n);
    unite_points(s, w, h, up);
    flatten(up, n);
}
