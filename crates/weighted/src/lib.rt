// Weighted erosion, dilation, opening and closing of 8-bit pictures as a user calls them:
// the answer and every lent byte are settled for all inputs.
// The element's heights are read where they stand, in its descriptor.
#![tactic(auto)]

ghost use Rattle.std.specs.Prelude.{◌≡◌, min, length};
ghost use Rattle.answer.specs.Answer.{told};
ghost use Rattle.morphology.specs.Weighted.{erode_weighted, dilate_weighted, open_weighted, close_weighted};
ghost use Rattle.rows.specs.Steps.Ways.{grows_of};
ghost use Rattle.weighted.specs.Weighted.{weighted_answer, weighted_left};
ghost use Rattle.weighted.specs.Steps.Ways.{once_by, twice_by};

use answer::Answer;
use picture::Depth;
use rows::Way;

// One operation, from the source into the target.
fn run(way: Way, w: usize, h: usize, source: &[u8], element: &[u8], target: &mut [u8]) -> Answer
    ensures answer { told result
        ≡ weighted_answer w h source.now element.now
        (length target.old) }
    ensures bytes { target.new
        ≡ weighted_left (once_by (grows_of way)) w h source.now element.now
        (length target.old) target.old }
{
    let made = descriptor::well_weighted(element);
    judge::element_refusal(Depth::EightBit, w, h, source, made, target.len())?;
    let o = reader::outline_at(&element[..]);
    let words = reader::rows_at(&element[..]);
    let grows = rows::is_growing(way);
    let at = element::cells_end(o.w, o.h);
    let heights = &element[at..];
    apply::weighted(grows, source, target, w, h, o, &words, heights);
    Ok(())
}

// Two operations by one element:
// the first from the source into the scratch, the other from there into the target.
// It differs from `run` in the buffers, the room and the call: one form of both is no plainer.
fn run_twice(
    first: Way,
    w: usize,
    h: usize,
    source: &[u8],
    element: &[u8],
    target: &mut [u8],
    scratch: &mut [u8],
) -> Answer
    ensures answer { told result
        ≡ weighted_answer w h source.now element.now
        (min (length target.old) (length scratch.old)) }
    ensures bytes { target.new
        ≡ weighted_left (twice_by (grows_of first)) w h source.now element.now
        (min (length target.old) (length scratch.old)) target.old }
    ensures middle { scratch.new
        ≡ weighted_left (once_by (grows_of first)) w h source.now element.now
        (min (length target.old) (length scratch.old)) scratch.old }
{
    let room = target.len().min(scratch.len());
    let made = descriptor::well_weighted(element);
    judge::element_refusal(Depth::EightBit, w, h, source, made, room)?;
    let o = reader::outline_at(&element[..]);
    let words = reader::rows_at(&element[..]);
    let grows = rows::is_growing(first);
    let at = element::cells_end(o.w, o.h);
    let heights = &element[at..];
    apply::weighted_twice(grows, source, target, scratch, w, h, o, &words, heights);
    Ok(())
}

// Erosion of the w x h picture in the source by the element of a weighted descriptor, into the target.
pub fn erode(w: usize, h: usize, source: &[u8], element: &[u8], target: &mut [u8]) -> Answer
    ensures answer { told result
        ≡ weighted_answer w h source.now element.now
        (length target.old) }
    ensures bytes { target.new
        ≡ weighted_left erode_weighted w h source.now element.now
        (length target.old) target.old }
{
    run(Way::Erode, w, h, source, element, target)
}

// Dilation.
pub fn dilate(w: usize, h: usize, source: &[u8], element: &[u8], target: &mut [u8]) -> Answer
    ensures answer { told result
        ≡ weighted_answer w h source.now element.now
        (length target.old) }
    ensures bytes { target.new
        ≡ weighted_left dilate_weighted w h source.now element.now
        (length target.old) target.old }
{
    run(Way::Dilate, w, h, source, element, target)
}

// Opening: the scratch holds the eroded picture afterwards.
pub fn open(
    w: usize,
    h: usize,
    source: &[u8],
    element: &[u8],
    target: &mut [u8],
    scratch: &mut [u8],
) -> Answer
    ensures answer { told result
        ≡ weighted_answer w h source.now element.now
        (min (length target.old) (length scratch.old)) }
    ensures bytes { target.new
        ≡ weighted_left open_weighted w h source.now element.now
        (min (length target.old) (length scratch.old)) target.old }
    ensures middle { scratch.new
        ≡ weighted_left erode_weighted w h source.now element.now
        (min (length target.old) (length scratch.old)) scratch.old }
{
    run_twice(Way::Erode, w, h, source, element, target, scratch)
}

// Closing: the scratch holds the dilated picture afterwards.
pub fn close(
    w: usize,
    h: usize,
    source: &[u8],
    element: &[u8],
    target: &mut [u8],
    scratch: &mut [u8],
) -> Answer
    ensures answer { told result
        ≡ weighted_answer w h source.now element.now
        (min (length target.old) (length scratch.old)) }
    ensures bytes { target.new
        ≡ weighted_left close_weighted w h source.now element.now
        (min (length target.old) (length scratch.old)) target.old }
    ensures middle { scratch.new
        ≡ weighted_left dilate_weighted w h source.now element.now
        (min (length target.old) (length scratch.old)) scratch.old }
{
    run_twice(Way::Dilate, w, h, source, element, target, scratch)
}
