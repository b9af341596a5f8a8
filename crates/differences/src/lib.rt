// White top-hat, black top-hat and gradient as a user calls them:
// the answer and every lent byte are settled for all inputs.
#![tactic(auto)]

ghost use Rattle.std.specs.Prelude.{◌≡◌, min, length};
ghost use Rattle.answer.specs.Answer.{told};
ghost use Rattle.picture.specs.Frame.{frame, top, Holds};
ghost use Rattle.picture.specs.Points.{value_at};
ghost use Rattle.picture.specs.Bytes.{written};
ghost use Rattle.element.specs.Record.{shape_by};
ghost use Rattle.morphology.specs.Operations as defined;
ghost use Rattle.morphology.specs.TopHats as hats;
ghost use Rattle.rows.specs.Steps.Ready.{Ready};
ghost use Rattle.flat.specs.Flat.{flat_answer, flat_left};
ghost use Rattle.differences.specs.Steps.Which.{made_by, middle_by};

use answer::Answer;
use apply::{Bits, Bytes, Deep};
use element::{Outline, RowWord};
use less::From;
use picture::Depth;

// Which of the three.
#[derive(Clone, Copy)]
enum Which {
    White,
    Black,
    Gradient,
}

// The difference, by an element that was read:
// the middle picture in the scratch, the rest in the target.
fn make<D: Deep>(
    which: Which,
    w: usize,
    h: usize,
    source: &[u8],
    o: Outline,
    words: &[RowWord],
    target: &mut [u8],
    scratch: &mut [u8],
)
    requires ready { Ready D.DEPTH (length source.now) (length words.now) w h o }
    requires holds { Holds D.DEPTH (length target.old) w h }
    requires holds_2 { Holds D.DEPTH (length scratch.old) w h }
    ensures bytes { target.new
        ≡ written D.DEPTH
        (made_by which D.DEPTH (frame w h) (shape_by o words.now)
        (value_at D.DEPTH source.now w))
        w h target.old }
    ensures middle { scratch.new
        ≡ written D.DEPTH
        (middle_by which D.DEPTH (frame w h) (shape_by o words.now)
        (value_at D.DEPTH source.now w))
        w h scratch.old }
{
    match which {
        Which::White => {
            D::twice(false, &source[..], target, scratch, w, h, o, words);
            less::subtract(D::DEPTH, From::Other, w, h, &source[..], target);
        }
        Which::Black => {
            D::twice(true, &source[..], target, scratch, w, h, o, words);
            less::subtract(D::DEPTH, From::Target, w, h, &source[..], target);
        }
        Which::Gradient => {
            D::flat(false, &source[..], scratch, w, h, o, words);
            D::flat(true, &source[..], target, w, h, o, words);
            less::subtract(D::DEPTH, From::Target, w, h, &scratch[..], target);
        }
    }
}

// Judged as an opening is, then made.
fn run<D: Deep>(
    which: Which,
    w: usize,
    h: usize,
    source: &[u8],
    element: &[u8],
    target: &mut [u8],
    scratch: &mut [u8],
) -> Answer
    ensures answer { told result
        ≡ flat_answer D.DEPTH w h source.now element.now
        (min (length target.old) (length scratch.old)) }
    ensures bytes { target.new
        ≡ flat_left D.DEPTH (made_by which D.DEPTH) w h source.now element.now
        (min (length target.old) (length scratch.old)) target.old }
    ensures middle { scratch.new
        ≡ flat_left D.DEPTH (middle_by which D.DEPTH) w h source.now element.now
        (min (length target.old) (length scratch.old)) scratch.old }
{
    let room = target.len().min(scratch.len());
    let made = descriptor::well_made(&element[..]);
    judge::element_refusal(D::DEPTH, w, h, &source[..], made, room)?;
    let o = reader::outline_at(&element[..]);
    let words = reader::rows_at(&element[..]);
    make::<D>(which, w, h, &source[..], o, &words, target, scratch);
    Ok(())
}

// White top-hat, the picture less its opening: the scratch holds the eroded picture afterwards.
pub fn white_tophat(
    depth: Depth,
    w: usize,
    h: usize,
    source: &[u8],
    element: &[u8],
    target: &mut [u8],
    scratch: &mut [u8],
) -> Answer
    ensures answer { told result
        ≡ flat_answer depth w h source.now element.now
        (min (length target.old) (length scratch.old)) }
    ensures bytes { target.new
        ≡ flat_left depth (hats.white_top_hat (top depth)) w h source.now element.now
        (min (length target.old) (length scratch.old)) target.old }
    ensures middle { scratch.new
        ≡ flat_left depth (defined.erode (top depth)) w h source.now element.now
        (min (length target.old) (length scratch.old)) scratch.old }
{
    match depth {
        Depth::OneBit => run::<Bits>(Which::White, w, h, source, element, target, scratch),
        Depth::EightBit => run::<Bytes>(Which::White, w, h, source, element, target, scratch),
    }
}

// Black top-hat, the closing less the picture: the scratch holds the dilated picture afterwards.
pub fn black_tophat(
    depth: Depth,
    w: usize,
    h: usize,
    source: &[u8],
    element: &[u8],
    target: &mut [u8],
    scratch: &mut [u8],
) -> Answer
    ensures answer { told result
        ≡ flat_answer depth w h source.now element.now
        (min (length target.old) (length scratch.old)) }
    ensures bytes { target.new
        ≡ flat_left depth (hats.black_top_hat (top depth)) w h source.now element.now
        (min (length target.old) (length scratch.old)) target.old }
    ensures middle { scratch.new
        ≡ flat_left depth defined.dilate w h source.now element.now
        (min (length target.old) (length scratch.old)) scratch.old }
{
    match depth {
        Depth::OneBit => run::<Bits>(Which::Black, w, h, source, element, target, scratch),
        Depth::EightBit => run::<Bytes>(Which::Black, w, h, source, element, target, scratch),
    }
}

// Gradient, the dilation less the erosion: the scratch holds the eroded picture afterwards.
pub fn gradient(
    depth: Depth,
    w: usize,
    h: usize,
    source: &[u8],
    element: &[u8],
    target: &mut [u8],
    scratch: &mut [u8],
) -> Answer
    ensures answer { told result
        ≡ flat_answer depth w h source.now element.now
        (min (length target.old) (length scratch.old)) }
    ensures bytes { target.new
        ≡ flat_left depth (hats.gradient (top depth)) w h source.now element.now
        (min (length target.old) (length scratch.old)) target.old }
    ensures middle { scratch.new
        ≡ flat_left depth (defined.erode (top depth)) w h source.now element.now
        (min (length target.old) (length scratch.old)) scratch.old }
{
    match depth {
        Depth::OneBit => run::<Bits>(Which::Gradient, w, h, source, element, target, scratch),
        Depth::EightBit => run::<Bytes>(Which::Gradient, w, h, source, element, target, scratch),
    }
}
