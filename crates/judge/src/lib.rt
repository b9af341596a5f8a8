// The tests that every call makes of a picture:
// its size, its source, its padding, and the room that is lent for what is written.
#![tactic(auto)]

ghost use Rattle.std.specs.Prelude.{◌≡◌, length};
ghost use Rattle.answer.specs.Answer.{told, plain};
ghost use Rattle.answer.specs.Refuse.{refuse};
ghost use Rattle.answer.specs.Lent.{if_done};
ghost use Rattle.picture.specs.Frame.{Holds};
ghost use Rattle.judge.specs.declared.Padding.TheVariants.{Free};
ghost use Rattle.judge.specs.Tests.{passes, picture_tests, room_tests, shape_tests, element_tests};

use answer::{Answer, Refusal};
use picture::Depth;

// The padding of a one-bit source is judged, or is free.
#[derive(Clone, Copy)]
pub enum Padding {
    Judged,
    Free,
}

// The padding passes.
fn is_passed(padding: Padding, depth: Depth, s: &[u8], w: usize, h: usize) -> bool
    requires { Holds depth (length s.now) w h }
    ensures { result ≡ passes padding depth s.now w h }
{
    match padding {
        Padding::Judged => padding::padding_clear(depth, s, w, h),
        Padding::Free => true,
    }
}

// The first refusal in order: SIZE, SOURCE, PAD, then what the call found of its own between these and ROOM,
// where the shortest lent buffer has `room` bytes and `before` bytes stand before the picture.
pub fn refusal(
    padding: Padding,
    depth: Depth,
    w: usize,
    h: usize,
    s: &[u8],
    between: Answer,
    before: usize,
    room: usize,
) -> Answer
    ensures { told result
        ≡ refuse (picture_tests padding depth w h s.now)
        (if_done (told between) (refuse (room_tests depth w h before room) (plain 0))) }
{
    if !picture::sized(w, h) {
        return Err(Refusal::Size);
    }
    let n = picture::picture_bytes(depth, w, h);
    if s.len() != n {
        return Err(Refusal::Source);
    }
    if !is_passed(padding, depth, s, w, h) {
        return Err(Refusal::Pad);
    }
    between?;
    if room < before {
        return Err(Refusal::Room);
    }
    if room - before < n {
        return Err(Refusal::Room);
    }
    Ok(())
}

// What is found of a descriptor, well made or not: done, or SHAPE.
pub fn shape_answer(made: bool) -> Answer
    ensures { told result ≡ refuse (shape_tests made) (plain 0) }
{
    if made { Ok(()) } else { Err(Refusal::Shape) }
}

// The first refusal of an operation by one element, whose descriptor was found well made or not:
// SIZE, SOURCE, SHAPE, ROOM. What stands in the source's padding is free.
pub fn element_refusal(
    depth: Depth,
    w: usize,
    h: usize,
    s: &[u8],
    made: bool,
    room: usize,
) -> Answer
    ensures { told result ≡ refuse (element_tests Free depth w h s.now made room) (plain 0) }
{
    let shape = shape_answer(made);
    refusal(Padding::Free, depth, w, h, s, shape, 0, room)
}
