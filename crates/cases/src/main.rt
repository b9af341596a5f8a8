// Runs the jobs of its input, a line each, and prints of each what it answers and every buffer that was lent:
// flat and weighted operations, top-hats and gradients, hit-or-miss, chained runs, and copies.
// One program, since what one costs the prover is mostly what all of these load.
// tools/cases makes the lines, says what their letters and numbers mean, and makes what must be printed.
#![tactic(auto)]

ghost use Rattle.std.specs.Prelude.{◌≡◌, length};

use answer::Answer;
use judge::Padding;
use lines::Head;
use picture::{Depth, Face};
use std::io;

// As much as the largest picture of 8 bits, and two bytes more.
fn room() -> [u8; 262146]
    ensures { 262146 ≡ length result }
{
    [0; 262146]
}

// A copy as it is or turned over, whatever the padding.
fn copied(
    depth: Depth,
    face: Face,
    w: usize,
    h: usize,
    source: &[u8],
    target: &mut [u8],
) -> Answer {
    judge::refusal(Padding::Free, depth, w, h, source, Ok(()), 0, target.len())?;
    copies::copy_picture(depth, face, source, target, w, h);
    Ok(())
}

// Those that are lent a scratch buffer.
fn call_twice(
    head: Head,
    target: &mut [u8],
    scratch: &mut [u8],
    source: &[u8],
    element: &[u8],
    other: &[u8],
) -> Answer {
    let letter = head.letter;
    let depth = head.depth;
    let w = head.w;
    let h = head.h;
    let k = head.links;
    match letter {
        b'o' => flat::open(depth, w, h, source, element, target, scratch),
        b'c' => flat::close(depth, w, h, source, element, target, scratch),
        b'w' => differences::white_tophat(depth, w, h, source, element, target, scratch),
        b'b' => differences::black_tophat(depth, w, h, source, element, target, scratch),
        b'g' => differences::gradient(depth, w, h, source, element, target, scratch),
        b'O' => weighted::open(w, h, source, element, target, scratch),
        b'C' => weighted::close(w, h, source, element, target, scratch),
        b'l' => chained::erode(depth, w, h, source, element, k, other, target, scratch),
        _ => chained::dilate(depth, w, h, source, element, k, other, target, scratch),
    }
}

fn call(
    head: Head,
    target: &mut [u8],
    scratch: &mut [u8],
    source: &[u8],
    element: &[u8],
    other: &[u8],
) -> Answer {
    let letter = head.letter;
    let depth = head.depth;
    let w = head.w;
    let h = head.h;
    match letter {
        b'e' => flat::erode(depth, w, h, source, element, target),
        b'd' => flat::dilate(depth, w, h, source, element, target),
        b'E' => weighted::erode(w, h, source, element, target),
        b'D' => weighted::dilate(w, h, source, element, target),
        b'h' => hit::hit_or_miss(w, h, source, element, other, target),
        b'a' => copied(depth, Face::AsIs, w, h, source, target),
        b't' => copied(depth, Face::TurnedOver, w, h, source, target),
        _ => call_twice(head, target, scratch, source, element, other),
    }
}

// The call, and what came of it.
fn run(
    rt: &impl Print,
    head: Head,
    target: &mut [u8],
    scratch: &mut [u8],
    source: &[u8],
    element: &[u8],
    other: &[u8],
) -> io::Result<()> {
    show::answered(rt, call(head, target, scratch, source, element, other))?;
    show::buffer(rt, b"target", target)?;
    show::buffer(rt, b"scratch", scratch)
}

// What a call is given, and the call.
fn given(
    rt: &impl Print,
    head: Head,
    line: &[u8],
    at: usize,
    target: &mut [u8],
    scratch: &mut [u8],
) -> io::Result<()> {
    let mut source = room();
    let mut element = lines::large_buffer();
    let mut other = lines::buffer();
    let s = lines::buffer_at(line, at, &mut source);
    let e = lines::buffer_at(line, s.next, &mut element);
    let o = lines::buffer_at(line, e.next, &mut other);
    run(
        rt,
        head,
        target,
        scratch,
        &source[..s.value],
        &element[..e.value],
        &other[..o.value],
    )
}

// A label, or a job and the buffers that it lends.
fn job(rt: &impl Print, line: &[u8]) -> io::Result<()> {
    let Some(&letter) = line.first() else {
        return Ok(());
    };
    if letter == b'#' {
        return show::text(rt, line);
    }
    let head = lines::head_of(letter, line);
    let mut target = room();
    let mut scratch = room();
    let t = lines::buffer_at(line, head.next, &mut target);
    let u = lines::buffer_at(line, t.next, &mut scratch);
    given(
        rt,
        head,
        line,
        u.next,
        &mut target[..t.value],
        &mut scratch[..u.value],
    )
}

fn each_line(rt: &impl Print, input: &[u8]) -> io::Result<()> {
    let mut rest = input;
    // a `while`: where a line ends is what `numbers::line_end` promises
    while !rest.is_empty() {
        let (line, after) = rest.split_at(numbers::line_end(rest, 0));
        job(rt, line)?;
        rest = after;
    }
    Ok(())
}

fn main(rt: HostRuntime) -> io::Result<()> {
    let mut input = room();
    let n = lines::read_full(&mut rt.reader(), &mut input)?;
    each_line(&rt, &input[..n])
}
