// Chains as descriptors: read one after another, and checked against the whole element.
#![tactic(auto)]

ghost use Rattle.std.specs.Prelude.{◌≡◌, true, ◌≤◌, take};
ghost use Rattle.answer.specs.Answer.{told, plain};
ghost use Rattle.answer.specs.Refuse.{refuse};
ghost use Rattle.element.specs.Descriptor.{well_made};
ghost use Rattle.morphology.specs.Chain.{most_links};
ghost use Rattle.chain.specs.Reading.{counted, small, link_tests, checked};
ghost use Rattle.chain.specs.Steps.Records.{link_read, held_in, ReadAs};

use answer::{Answer, Refusal};
use reach::{Link, MOST_LINK_CELLS, MOST_LINKS};

// The number of links is one of a chain.
pub fn is_counted(k: usize) -> bool
    ensures { result ≡ counted k }
{
    1 <= k && k <= MOST_LINKS
}

// The size is one of a link.
fn is_small(w: usize, h: usize) -> bool
    ensures { result ≡ small w h }
{
    w <= MOST_LINK_CELLS && h <= MOST_LINK_CELLS
}

// One link. The element that is read of it is held here alone: a link has an eighth of its rows.
fn read_link(d: &[u8]) -> Result<Link, Refusal>
    ensures { result ≡ link_read d.now }
{
    if !descriptor::well_made(d) {
        return Err(Refusal::Shape);
    }
    let e = reader::element_at(d);
    let o = e.outline;
    if !is_small(o.w, o.h) {
        return Err(Refusal::Chain);
    }
    Ok(reach::link_of(o, &e.rows))
}

// k links, one after another, and nothing after them.
pub fn read_links(d: &[u8], k: usize) -> Result<[Link; MOST_LINKS], Refusal>
    requires { k ≤ most_links }
    ensures { ReadAs (refuse (link_tests k d.now) (plain 0)) k d.now result }
{
    let mut all = [reach::no_link(); MOST_LINKS];
    let mut at = 0;
    for i in 0..k {
        let end = at + element::descriptor_len(&d[at..]);
        all[i] = read_link(&d[at..end])?;
        at = end;
    }
    if at < d.len() {
        return Err(Refusal::Shape);
    }
    Ok(all)
}

// The check of an element and a number of links that have passed, and of the links, none of them refused,
// as they were read. The chain itself is only what is said of it.
fn judged(element: &[u8], links: usize, held: [Link; MOST_LINKS], chain: &[u8]) -> Answer
    requires element_value { (well_made element.now ≡ true) × (counted links ≡ true) }
    requires made { refuse (link_tests links chain.now) (plain 0) ≡ plain 0 }
    requires held { take links held ≡ held_in links chain.now }
    ensures { told result ≡ checked element.now links chain.now }
{
    let e = reader::element_at(element);
    let o = e.outline;
    faults::check(o, &e.rows, held, links)
}

// The check of an element's descriptor and of the descriptors of its links: done is accepted.
// Nothing calls itself: its stack is the same whatever the input (docs/HOST.md has it),
// and it takes some milliseconds for the largest.
pub fn check_chain(element: &[u8], links: usize, chain: &[u8]) -> Answer
    ensures { told result ≡ checked element.now links chain.now }
{
    if !descriptor::well_made(element) {
        return Err(Refusal::Shape);
    }
    if !is_counted(links) {
        return Err(Refusal::Chain);
    }
    let held = read_links(chain, links)?;
    judged(element, links, held, chain)
}
