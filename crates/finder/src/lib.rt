// The finder of a chained run's last picture: its own bytes, out of the two work buffers.
#![tactic(auto)]

ghost use Rattle.std.specs.Prelude.{◌≡◌};
ghost use Rattle.finder.specs.Finder.{is_there, found_at, place_at};

use picture::Depth;

// By the lengths of the two buffers.
fn is_there(first: usize, second: usize, depth: Depth, w: usize, h: usize, links: usize) -> bool
    ensures { result ≡ is_there first second depth w h links }
{
    if !picture::sized(w, h) {
        return false;
    }
    if !chain::is_counted(links) {
        return false;
    }
    let n = picture::picture_bytes(depth, w, h);
    if first < n {
        return false;
    }
    if second < n {
        return false;
    }
    true
}

// Results 1, 3 and 5 went to the first buffer, 2 and 4 to the second.
// The part begins where its buffer begins; where there is no last picture it is the first's empty start.
pub fn last_picture<'a>(
    first: &'a [u8],
    second: &'a [u8],
    depth: Depth,
    w: usize,
    h: usize,
    links: usize,
) -> &'a [u8]
    ensures bytes { result.now ≡ found_at first.now second.now depth w h links }
    ensures place { result.ref_ptr ≡ place_at first.now second.now depth w h links
        first.entry.ref_ptr second.entry.ref_ptr }
{
    if !is_there(first.len(), second.len(), depth, w, h, links) {
        return &first[..0];
    }
    let n = picture::picture_bytes(depth, w, h);
    if links % 2 == 1 {
        &first[..n]
    } else {
        &second[..n]
    }
}
