// A chain for an element: candidates in a stated order, and the first that the check accepts;
// where it accepts none, a sum that the element is taken apart into.
#![tactic(auto)]

ghost use Rattle.std.specs.Prelude.{◌≡◌, length};
ghost use Rattle.dividing.specs.Least.{below};
ghost use Rattle.chainfor.specs.declared.Unfound.TheVariants.{Refused};
ghost use Rattle.chainfor.specs.Find.{tries, accepts, first_try, within, FoundAs, chain_left};
ghost use Rattle.chainfor.specs.Steps.Summed.{SumAs, sum_left};

use answer::Refusal;
use hulls::Hull;
use reach::{MOST_LINK_CELLS, MOST_LINKS};
use takeapart::Way;

// How many candidates there are: after these the element is taken apart.
pub const TRIES: usize = 51;

// The columns, or the rows, that the sums of a chain can span, less one.
const MOST_SPAN: usize = MOST_LINKS * (MOST_LINK_CELLS - 1);

// A chain that was found: the number of links and of bytes written.
#[derive(Clone, Copy, Debug, PartialEq, Eq)]
pub struct Found {
    pub links: usize,
    pub bytes: usize,
}

// Why none was found: the call is refused, or the search gave up, which is told as NOCHAIN too.
// Where it is refused as NOCHAIN no chain exists.
#[derive(Clone, Copy, Debug, PartialEq, Eq)]
pub enum Unfound {
    Refused(Refusal),
    GaveUp,
}

impl From<Refusal> for Unfound {
    ghost from_gives = { λ r u. u ≡ Refused r };

    fn from(r: Refusal) -> Unfound {
        Unfound::Refused(r)
    }
}

// The check accepts candidate t.
fn accepted(element: &[u8], hull: Hull, t: usize) -> bool
    ensures { result ≡ accepts element.now hull t }
{
    let c = candidates::try_no(t);
    let k = candidates::links_of(hull, c);
    let m = candidates::length_of(hull, c);
    let mut work = [0u8; 60];
    candidates::put_links(&mut work, hull, c, k, m);
    let n = k * m;
    chain::check_chain(element, k, &work[..n]).is_ok()
}

// The first candidate that the check accepts.
fn first_try(element: &[u8], hull: Hull) -> Option<usize>
    ensures { result ≡ below tries (first_try element.now hull) }
{
    (0..TRIES).find(|&t| accepted(element, hull, t))
}

// The number of bytes that a link of a sum has.
const LINK_BYTES: usize = 12;

// A sum that the element was taken apart into, where the check accepts it.
fn find_sum(element: &[u8], way: Way, chain: &mut [u8]) -> Result<Found, Unfound>
    ensures found { SumAs element.now way (length chain.old) result }
    ensures bytes { chain.new ≡ sum_left element.now way chain.old }
{
    let work = takeapart::sum_bytes(way);
    let links = way.depth.min(MOST_LINKS);
    let bytes = links * LINK_BYTES;
    if chain::check_chain(element, links, &work[..bytes]).is_err() {
        return Err(Unfound::GaveUp);
    }
    if chain.len() < bytes {
        return Err(Unfound::Refused(Refusal::Room));
    }
    basics::copy(&work[..bytes], chain);
    Ok(Found { links, bytes })
}

// The set cells and the origin lie in no more columns, or rows, than the sums of a chain can span.
#[tactic(auto, unfolding(crate::specs::Find::within))]
fn is_near(hull: Hull) -> bool
    ensures { result ≡ within hull }
{
    let across = hull.across;
    let down = hull.down;
    across.span <= MOST_SPAN && down.span <= MOST_SPAN
}

// A chain for the element: its links' descriptors, one after another, at the start of `chain`.
pub fn find_chain(element: &[u8], chain: &mut [u8]) -> Result<Found, Unfound>
    ensures found { FoundAs element.now (length chain.old) result }
    ensures bytes { chain.new ≡ chain_left element.now chain.old }
{
    let e = reader::read_element(element)?;
    let hull = hulls::hull_of(e);
    if !is_near(hull) {
        return Err(Unfound::Refused(Refusal::NoChain));
    }
    let Some(t) = first_try(element, hull) else {
        let outline = e.outline;
        let origin = outline.origin;
        let p = origin.ping;
        let b = origin.bin;
        let way = takeapart::walk(e.rows, usize::from(p.0), usize::from(b.0));
        return find_sum(element, way, chain);
    };
    let c = candidates::try_no(t);
    let links = candidates::links_of(hull, c);
    let m = candidates::length_of(hull, c);
    let bytes = links * m;
    if chain.len() < bytes {
        return Err(Unfound::Refused(Refusal::Room));
    }
    candidates::put_links(chain, hull, c, links, m);
    Ok(Found { links, bytes })
}
