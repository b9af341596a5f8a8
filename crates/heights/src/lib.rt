// The heights of a weighted descriptor beside its cells.
#![tactic(auto)]

ghost use Rattle.std.specs.Prelude.{◌≡◌, length, eqb};
ghost use Rattle.picture.specs.Frame.{Holds};
ghost use Rattle.element.specs.Descriptor.{height_made, heights_made_in, heights_made};
ghost use Rattle.element.specs.Steps.Heights.{Weighed};

use element::SIGN_BIT;
use picture::{Bin, Depth, Ping, Point};

// One height beside its cell.
fn height_made(set: bool, g: u8) -> bool
    ensures { result ≡ height_made set g }
{
    if set { g != SIGN_BIT } else { g == 0 }
}

// The heights of one row beside its cells.
#[tactic(auto, using(basics::proofs::Tests::walk), unfolding(element::specs::Descriptor::height_made_at))]
fn row_heights_made(cells: &[u8], heights: &[u8], w: usize, row: Bin) -> bool
    requires { Weighed (length cells.now) (length heights.now) w row.0 }
    ensures { result ≡ heights_made_in cells.now heights.now w row.0 }
{
    for c in 0..w {
        let at = Point {
            ping: Ping(c as u16),
            bin: row,
        };
        let set = points::value(Depth::OneBit, cells, w, at) == 1;
        let g = points::value(Depth::EightBit, heights, w, at);
        if !height_made(set, g) {
            return false;
        }
    }
    true
}

// The heights of all rows.
#[tactic(auto, using(basics::proofs::Tests::walk), unfolding(element::specs::Descriptor::heights_made))]
pub fn heights_made(cells: &[u8], heights: &[u8], w: usize, h: usize) -> bool
    requires holds { Holds Depth.OneBit (length cells.now) w h }
    requires holds_2 { Holds Depth.EightBit (length heights.now) w h }
    ensures { result ≡ heights_made cells.now heights.now w h }
{
    for y in 0..h {
        if !row_heights_made(cells, heights, w, Bin(y as u16)) {
            return false;
        }
    }
    true
}
