// Flat erosion, dilation, opening and closing as a user calls them:
// the answer and every lent byte are settled for all inputs.
// `run` and `twice` are compiled once for each depth, which so has a stack of its own.
#![tactic(auto)]

ghost use Rattle.std.specs.Prelude.{◌≡◌, min, length};
ghost use Rattle.answer.specs.Answer.{told};
ghost use Rattle.picture.specs.Frame.{top};
ghost use Rattle.morphology.specs.Operations as defined;
ghost use Rattle.rows.specs.Steps.Ways.{grows_of};
ghost use Rattle.flat.specs.Flat.{flat_answer, flat_left};
ghost use Rattle.flat.specs.Steps.Ways.{once_by, twice_by};

use answer::Answer;
use apply::{Bits, Bytes, Deep};
use picture::Depth;
use rows::Way;

// One operation, from the source into the target. The element is read where nothing is refused.
fn run<D: Deep>(
    way: Way,
    w: usize,
    h: usize,
    source: &[u8],
    element: &[u8],
    target: &mut [u8],
) -> Answer
    ensures answer { told result
        ≡ flat_answer D.DEPTH w h source.now element.now
        (length target.old) }
    ensures bytes { target.new
        ≡ flat_left D.DEPTH (once_by (grows_of way) D.DEPTH) w h source.now element.now
        (length target.old) target.old }
{
    let made = descriptor::well_made(&element[..]);
    judge::element_refusal(D::DEPTH, w, h, &source[..], made, target.len())?;
    let o = reader::outline_at(&element[..]);
    let words = reader::rows_at(&element[..]);
    let grows = rows::is_growing(way);
    D::flat(grows, &source[..], target, w, h, o, &words);
    Ok(())
}

// Two operations by one element:
// the first from the source into the scratch, the other from there into the target.
// It differs from `run` in the buffers, the room and the call: one form of both is no plainer.
fn twice<D: Deep>(
    first: Way,
    w: usize,
    h: usize,
    source: &[u8],
    element: &[u8],
    target: &mut [u8],
    scratch: &mut [u8],
) -> Answer
    ensures answer { told result
        ≡ flat_answer D.DEPTH w h source.now element.now
        (min (length target.old) (length scratch.old)) }
    ensures bytes { target.new
        ≡ flat_left D.DEPTH (twice_by (grows_of first) D.DEPTH) w h source.now element.now
        (min (length target.old) (length scratch.old)) target.old }
    ensures middle { scratch.new
        ≡ flat_left D.DEPTH (once_by (grows_of first) D.DEPTH) w h source.now element.now
        (min (length target.old) (length scratch.old)) scratch.old }
{
    let room = target.len().min(scratch.len());
    let made = descriptor::well_made(&element[..]);
    judge::element_refusal(D::DEPTH, w, h, &source[..], made, room)?;
    let o = reader::outline_at(&element[..]);
    let words = reader::rows_at(&element[..]);
    let grows = rows::is_growing(first);
    D::twice(grows, &source[..], target, scratch, w, h, o, &words);
    Ok(())
}

// Erosion of the w x h picture in the source by the element of a descriptor, into the target.
pub fn erode(
    depth: Depth,
    w: usize,
    h: usize,
    source: &[u8],
    element: &[u8],
    target: &mut [u8],
) -> Answer
    ensures answer { told result
        ≡ flat_answer depth w h source.now element.now
        (length target.old) }
    ensures bytes { target.new
        ≡ flat_left depth (defined.erode (top depth)) w h source.now element.now
        (length target.old) target.old }
{
    match depth {
        Depth::OneBit => run::<Bits>(Way::Erode, w, h, source, element, target),
        Depth::EightBit => run::<Bytes>(Way::Erode, w, h, source, element, target),
    }
}

// Dilation.
pub fn dilate(
    depth: Depth,
    w: usize,
    h: usize,
    source: &[u8],
    element: &[u8],
    target: &mut [u8],
) -> Answer
    ensures answer { told result
        ≡ flat_answer depth w h source.now element.now
        (length target.old) }
    ensures bytes { target.new
        ≡ flat_left depth defined.dilate w h source.now element.now
        (length target.old) target.old }
{
    match depth {
        Depth::OneBit => run::<Bits>(Way::Dilate, w, h, source, element, target),
        Depth::EightBit => run::<Bytes>(Way::Dilate, w, h, source, element, target),
    }
}

// Opening: the scratch holds the eroded picture afterwards.
pub fn open(
    depth: Depth,
    w: usize,
    h: usize,
    source: &[u8],
    element: &[u8],
    target: &mut [u8],
    scratch: &mut [u8],
) -> Answer
    ensures answer { told result
        ≡ flat_answer depth w h source.now element.now
        (min (length target.old) (length scratch.old)) }
    ensures bytes { target.new
        ≡ flat_left depth (defined.opening (top depth)) w h source.now element.now
        (min (length target.old) (length scratch.old)) target.old }
    ensures middle { scratch.new
        ≡ flat_left depth (defined.erode (top depth)) w h source.now element.now
        (min (length target.old) (length scratch.old)) scratch.old }
{
    match depth {
        Depth::OneBit => twice::<Bits>(Way::Erode, w, h, source, element, target, scratch),
        Depth::EightBit => twice::<Bytes>(Way::Erode, w, h, source, element, target, scratch),
    }
}

// Closing: the scratch holds the dilated picture afterwards.
pub fn close(
    depth: Depth,
    w: usize,
    h: usize,
    source: &[u8],
    element: &[u8],
    target: &mut [u8],
    scratch: &mut [u8],
) -> Answer
    ensures answer { told result
        ≡ flat_answer depth w h source.now element.now
        (min (length target.old) (length scratch.old)) }
    ensures bytes { target.new
        ≡ flat_left depth (defined.closing (top depth)) w h source.now element.now
        (min (length target.old) (length scratch.old)) target.old }
    ensures middle { scratch.new
        ≡ flat_left depth defined.dilate w h source.now element.now
        (min (length target.old) (length scratch.old)) scratch.old }
{
    match depth {
        Depth::OneBit => twice::<Bits>(Way::Dilate, w, h, source, element, target, scratch),
        Depth::EightBit => twice::<Bytes>(Way::Dilate, w, h, source, element, target, scratch),
    }
}
