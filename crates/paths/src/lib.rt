// All sums of a chain's links, and whether a path leads to an offset.
#![tactic(auto)]

ghost use Rattle.std.specs.Prelude.{◌≡◌, take};
ghost use Rattle.morphology.specs.Check.{path_test};
ghost use Rattle.reach.specs.Steps.Links.{shapes_of, place_of, OneByte, Linked};
ghost use Rattle.reach.specs.Steps.Boards.{board_of, everywhere_of, between_of};

use answer::CENTRE;
use reach::{Board, Bounds, Link, MOST_LINKS, Offset};

// No bound that a chain could meet.
fn everywhere() -> Bounds
    ensures { result ≡ everywhere_of }
{
    Bounds {
        left: 0,
        right: 255,
        top: 0,
        bottom: 255,
    }
}

// The box between 0 and the offset, ends included.
fn between(at: Offset) -> Bounds
    ensures { result ≡ between_of at }
{
    Bounds {
        left: CENTRE.min(at.x),
        right: CENTRE.max(at.x),
        top: CENTRE.min(at.y),
        bottom: CENTRE.max(at.y),
    }
}

// The board of all sums of the first k links.
pub fn all_sums(links: [Link; MOST_LINKS], k: usize) -> Board
    requires { Linked links k }
    ensures { result ≡ board_of everywhere_of (take k links) }
{
    let m = everywhere();
    board::reach(links, k, m)
}

// A path of the first k links leads to the offset.
pub fn path(links: [Link; MOST_LINKS], k: usize, at: Offset) -> bool
    requires linked { Linked links k }
    requires one_byte { OneByte at }
    ensures { result ≡ path_test (shapes_of (take k links)) (place_of at) }
{
    let m = between(at);
    let b = board::reach(links, k, m);
    let words = b.words;
    reach::holds(&words, b.origin, at)
}
