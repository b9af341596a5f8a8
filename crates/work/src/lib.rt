// The work that a job asks for: an element and a file judged,
// then an operation on the file's picture, and the text of the result. A refusal prints its line.
#![tactic(auto)]

ghost use Rattle.std.specs.Prelude.{◌≡◌, ◌++◌, length};
ghost use Rattle.answer.specs.Answer.{told, plain};
ghost use Rattle.answer.specs.Refuse.{refuse};
ghost use Rattle.answer.specs.Lent.{if_done};
ghost use Rattle.picture.specs.Frame.{Holds};
ghost use Rattle.picture.specs.Points.{value_at};
ghost use Rattle.picture.specs.Bytes.{written};
ghost use Rattle.element.specs.Record.{shape_by};
ghost use Rattle.apply.specs.Steps.Applied.{Fitting};
ghost use Rattle.ech.specs.ReadWrite.{file_tests};
ghost use Rattle.work.specs.Work.{text_tests, shortest, work_answer, operated, middle_in};
ghost use Rattle.work.specs.Prints.{refusal_of, over, Carried};
ghost use Rattle.work.specs.Steps.Taken.{Taken, Worked};

use answer::{Answer, Refusal};
use ech::Header;
use element::{Outline, RowWord};
use picture::Depth;

// The longest line of a refusal.
const MOST_REFUSED: usize = 11;

// What is asked for.
#[derive(Clone, Copy, Debug, PartialEq, Eq)]
pub enum Operation {
    Erode,
    Dilate,
    Open,
    Close,
}

// What came of it: the answer, and how many bytes at the start of the text are printed.
// A refusal prints too, so that both are there whatever is answered.
#[derive(Clone, Copy, Debug, PartialEq, Eq)]
pub struct Outcome {
    pub answer: Answer,
    pub printed: usize,
}

// The first refusal: what was found of the element,
// then the file, for work buffers of `room` bytes and a text of n.
fn refusal(shape: Answer, file: &[u8], room: usize, n: usize) -> Answer
    ensures { told result
        ≡ if_done (told shape)
        (refuse (file_tests file.now room ++ text_tests file.now n) (plain 0)) }
{
    shape?;
    let head = ech::judge_ech(file, room)?;
    let depth = ech::depth_of(head.kind);
    if n < text::most_len(depth, head.w, head.h, head.kind) {
        return Err(Refusal::Room);
    }
    Ok(())
}

// The operation, by an element that was read.
#[tactic(auto, using(apply::proofs::Applied::ready))]
fn operate(
    op: Operation,
    depth: Depth,
    w: usize,
    h: usize,
    source: &[u8],
    o: Outline,
    words: &[RowWord],
    res: &mut [u8],
    scratch: &mut [u8],
)
    requires holds { Holds depth (length source.now) w h }
    requires holds_2 { Holds depth (length res.old) w h }
    requires holds_3 { Holds depth (length scratch.old) w h }
    requires fitting { Fitting o (length words.now) }
    ensures res_after { res.new
        ≡ written depth
        (operated op depth w h (shape_by o words.now) (value_at depth source.now w))
        w h res.old }
    ensures scratch_after { scratch.new
        ≡ middle_in op depth w h (shape_by o words.now) (value_at depth source.now w)
        scratch.old }
{
    match op {
        Operation::Erode => apply::flat(depth, false, source, res, w, h, o, words),
        Operation::Dilate => apply::flat(depth, true, source, res, w, h, o, words),
        Operation::Open => apply::flat_twice(depth, false, source, res, scratch, w, h, o, words),
        Operation::Close => apply::flat_twice(depth, true, source, res, scratch, w, h, o, words),
    }
}

// What nothing refuses: the file's picture, the result and the text, one after another.
fn work_out(
    op: Operation,
    o: Outline,
    words: &[RowWord],
    file: &[u8],
    source: &mut [u8],
    res: &mut [u8],
    scratch: &mut [u8],
    text: &mut [u8],
) -> usize
    requires fitting { Fitting o (length words.now) }
    requires taken { Taken file.now (shortest source.old res.old scratch.old) (length text.old) }
    ensures { Worked op (shape_by o words.now) file.now source.old
        res.old scratch.old
        text.old result source.new res.new
        scratch.new text.new }
{
    let Header { kind, w, h } = ech::read_ech(file, source).unwrap();
    let depth = ech::depth_of(kind);
    let n = picture::picture_bytes(depth, w, h);
    operate(op, depth, w, h, &source[..n], o, words, res, scratch);
    drawing::put_text(depth, text, &res[..], w, h, kind)
}

// What a refusal prints, and its length.
fn say(no: Answer, text: &mut [u8]) -> usize
    ensures value { result ≡ length (refusal_of (told no) (length text.old)) }
    ensures text_after { text.new ≡ over (refusal_of (told no) (length text.old)) text.old }
{
    let t = answer::tell(no);
    let number = t.number as usize;
    if number == 8 {
        return 0;
    }
    if text.len() < MOST_REFUSED {
        return 0;
    }
    text::put_refused(text, number)
}

// A refusal, printed: of any answer, as its clause `answer_value` has it.
pub fn refused(no: Answer, text: &mut [u8]) -> Outcome
    ensures answer_value { (result.answer ≡ no)
        × (result.printed ≡ length (refusal_of (told no) (length text.old))) }
    ensures text_after { text.new ≡ over (refusal_of (told no) (length text.old)) text.old }
{
    let printed = say(no, text);
    Outcome {
        answer: no,
        printed,
    }
}

// The element of a descriptor and the picture of a file.
// All is judged before the first byte is written, so that a refusal changes no work buffer.
pub fn carry_out(
    op: Operation,
    descriptor: &[u8],
    file: &[u8],
    source: &mut [u8],
    res: &mut [u8],
    scratch: &mut [u8],
    text: &mut [u8],
) -> Outcome
    ensures { Carried
        (work_answer descriptor.now file.now source.old res.old
        scratch.old text.old)
        op descriptor.now file.now source.old res.old
        scratch.old text.old result source.new
        res.new scratch.new
        text.new }
{
    let room = source.len().min(res.len().min(scratch.len()));
    let made = descriptor::well_made(descriptor);
    let shape = judge::shape_answer(made);
    match refusal(shape, file, room, text.len()) {
        Ok(()) => {
            let e = reader::element_at(descriptor);
            let printed = work_out(op, e.outline, &e.rows, file, source, res, scratch, text);
            Outcome {
                answer: Ok(()),
                printed,
            }
        }
        Err(why) => refused(Err(why), text),
    }
}
