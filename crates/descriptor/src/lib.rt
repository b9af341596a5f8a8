// Which bytes are a descriptor, and which a weighted one.
#![tactic(auto)]

ghost use Rattle.std.specs.Prelude.{◌≡◌};
ghost use Rattle.element.specs.Descriptor.{head_made, cells_made, well_made};
ghost use Rattle.element.specs.Descriptor.{well_weighted};

use element::MOST_CELLS;
use picture::{Depth, Point};

// Size and origin.
#[tactic(auto, unfolding(element::specs::Descriptor::head_made))]
fn head_made(w: usize, h: usize, origin: Point) -> bool
    ensures { result ≡ head_made w h origin.ping.0 origin.bin.0 }
{
    (1..=MOST_CELLS).contains(&w)
        && (1..=MOST_CELLS).contains(&h)
        && usize::from(origin.ping.0) < w
        && usize::from(origin.bin.0) < h
}

// The four bytes and the rows are there and well made.
#[tactic(auto, unfolding(element::specs::Descriptor::cells_made))]
fn cells_made(d: &[u8]) -> bool
    ensures { result ≡ cells_made d.now }
{
    if d.len() < 4 {
        return false;
    }
    let w = usize::from(d[0]);
    let h = usize::from(d[1]);
    head_made(w, h, element::origin_of(d))
        && element::cells_end(w, h) <= d.len()
        && padding::padding_clear(Depth::OneBit, &d[4..], w, h)
}

// A descriptor with nothing after its rows.
#[tactic(auto, unfolding(element::specs::Descriptor::well_made))]
pub fn well_made(d: &[u8]) -> bool
    ensures { result ≡ well_made d.now }
{
    cells_made(d) && d.len() == element::cells_end(usize::from(d[0]), usize::from(d[1]))
}

// A weighted descriptor with nothing after its heights.
#[tactic(auto, unfolding(element::specs::Descriptor::well_weighted))]
pub fn well_weighted(d: &[u8]) -> bool
    ensures { result ≡ well_weighted d.now }
{
    if !cells_made(d) {
        return false;
    }
    let w = usize::from(d[0]);
    let h = usize::from(d[1]);
    let end = element::cells_end(w, h);
    d.len() == end + h * w && heights::heights_made(&d[4..], &d[end..], w, h)
}
