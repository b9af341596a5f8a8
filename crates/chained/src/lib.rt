// Chained erosion and dilation as a user calls them: each link in order,
// into one of two work buffers and then the other.
#![tactic(auto)]

ghost use Rattle.std.specs.Prelude.{◌≡◌, min, length};
ghost use Rattle.answer.specs.Answer.{told};
ghost use Rattle.answer.specs.Lent.{unless_refused};
ghost use Rattle.picture.specs.Frame.{Holds};
ghost use Rattle.chained.specs.Run.{run_answer, eroded, dilated, first_after, second_after};
ghost use Rattle.chained.specs.Steps.Buffers.{Fit, results_by, made_by, first_by, second_by, Going, Linked};

use answer::Answer;
use judge::Padding;
use picture::Depth;
use reach::{Link, MOST_LINKS};

// The link after i others, from what the last of them left into the other buffer;
// the first link reads the source.
fn link(
    depth: Depth,
    grows: bool,
    w: usize,
    h: usize,
    i: usize,
    source: &[u8],
    e: Link,
    first: &mut [u8],
    second: &mut [u8],
)
    requires holds { Holds depth (length source.now) w h }
    requires holds_2 { Holds depth (length first.old) w h }
    requires holds_3 { Holds depth (length second.old) w h }
    requires fit { Fit e }
    ensures first { first.new
        ≡ first_by grows depth w h i e source.now
        first.old second.old }
    ensures second { second.new
        ≡ second_by grows depth w h i e first.old second.old }
{
    let o = e.outline;
    if i == 0 {
        apply::flat(depth, grows, source, first, w, h, o, &e.rows);
        return;
    }
    if i % 2 == 1 {
        apply::flat(depth, grows, &first[..], second, w, h, o, &e.rows);
        return;
    }
    apply::flat(depth, grows, &second[..], first, w, h, o, &e.rows);
}

// All links in order.
fn each_link(
    depth: Depth,
    grows: bool,
    w: usize,
    h: usize,
    source: &[u8],
    all: [Link; MOST_LINKS],
    links: usize,
    first: &mut [u8],
    second: &mut [u8],
)
    requires { Going depth w h (length source.now) all links (length first.old)
        (length second.old) }
    ensures first { first.new
        ≡ first_after depth w h (made_by grows depth w h source.now all)
        links first.old }
    ensures second { second.new
        ≡ second_after depth w h (made_by grows depth w h source.now all)
        links second.old }
{
    for i in 0..links {
        let e = all[i];
        link(depth, grows, w, h, i, source, e, first, second);
    }
}

// The links of a chain that was checked, read once more: so what the check holds and what the run holds
// never stand on the stack together.
fn run_links(
    depth: Depth,
    grows: bool,
    w: usize,
    h: usize,
    source: &[u8],
    links: usize,
    chain: &[u8],
    first: &mut [u8],
    second: &mut [u8],
)
    requires { Linked depth w h (length source.now) links chain.now (length first.old)
        (length second.old) }
    ensures first { first.new
        ≡ first_after depth w h
        (results_by grows depth w h source.now chain.now) links
        first.old }
    ensures second { second.new
        ≡ second_after depth w h
        (results_by grows depth w h source.now chain.now) links
        second.old }
{
    let all = chain::read_links(chain, links).unwrap();
    each_link(depth, grows, w, h, source, all, links, first, second);
}

fn run(
    depth: Depth,
    grows: bool,
    w: usize,
    h: usize,
    source: &[u8],
    element: &[u8],
    links: usize,
    chain: &[u8],
    first: &mut [u8],
    second: &mut [u8],
) -> Answer
    ensures answer { told result
        ≡ run_answer depth w h source.now element.now links chain.now
        (min (length first.old) (length second.old)) }
    ensures first { first.new
        ≡ unless_refused (told result) first.old
        (first_after depth w h
        (results_by grows depth w h source.now chain.now) links
        first.old) }
    ensures second { second.new
        ≡ unless_refused (told result) second.old
        (second_after depth w h
        (results_by grows depth w h source.now chain.now) links
        second.old) }
{
    let check = chain::check_chain(element, links, chain);
    let room = first.len().min(second.len());
    judge::refusal(Padding::Free, depth, w, h, source, check, 0, room)?;
    // a call for each way: a function with one call is taken into its caller, and its links with it
    if grows {
        run_links(depth, true, w, h, source, links, chain, first, second);
        return Ok(());
    }
    run_links(depth, false, w, h, source, links, chain, first, second);
    Ok(())
}

// Erosion of the w x h picture in the source by each link of a chain in order,
// refused where the check of the element and the chain refuses it.
// Results 1, 3 and 5 go to the first buffer, 2 and 4 to the second; `finder::last_picture` finds the last.
pub fn erode(
    depth: Depth,
    w: usize,
    h: usize,
    source: &[u8],
    element: &[u8],
    links: usize,
    chain: &[u8],
    first: &mut [u8],
    second: &mut [u8],
) -> Answer
    ensures answer { told result
        ≡ run_answer depth w h source.now element.now links chain.now
        (min (length first.old) (length second.old)) }
    ensures first { first.new
        ≡ unless_refused (told result) first.old
        (first_after depth w h (eroded depth w h source.now chain.now)
        links first.old) }
    ensures second { second.new
        ≡ unless_refused (told result) second.old
        (second_after depth w h (eroded depth w h source.now chain.now)
        links second.old) }
{
    let grows = false;
    run(
        depth, grows, w, h, source, element, links, chain, first, second,
    )
}

// Dilation.
pub fn dilate(
    depth: Depth,
    w: usize,
    h: usize,
    source: &[u8],
    element: &[u8],
    links: usize,
    chain: &[u8],
    first: &mut [u8],
    second: &mut [u8],
) -> Answer
    ensures answer { told result
        ≡ run_answer depth w h source.now element.now links chain.now
        (min (length first.old) (length second.old)) }
    ensures first { first.new
        ≡ unless_refused (told result) first.old
        (first_after depth w h (dilated depth w h source.now chain.now)
        links first.old) }
    ensures second { second.new
        ≡ unless_refused (told result) second.old
        (second_after depth w h (dilated depth w h source.now chain.now)
        links second.old) }
{
    let grows = true;
    run(
        depth, grows, w, h, source, element, links, chain, first, second,
    )
}
