// Runs the jobs of its input, a line each, and prints of each what it answers and every byte of the target:
// markers grown inside masks.
// tools/cases makes the lines, says what their letters and numbers mean, and makes what must be printed.
#![tactic(auto)]

use grown::Neighbours;
use lines::Head;
use std::io;

fn neighbours_of(letter: u8) -> Neighbours {
    match letter {
        b'x' => Neighbours::Cross,
        _ => Neighbours::Square,
    }
}

// The call, and what came of it.
fn run(
    rt: &impl Print,
    head: Head,
    target: &mut [u8],
    marker: &[u8],
    mask: &[u8],
) -> io::Result<()> {
    let by = neighbours_of(head.letter);
    let answer = reconstruct::reconstruct(by, head.w, head.h, marker, mask, target);
    show::answered(rt, answer)?;
    show::buffer(rt, b"target", target)
}

// What a call is given, and the call.
fn given(rt: &impl Print, head: Head, line: &[u8], at: usize, target: &mut [u8]) -> io::Result<()> {
    let mut marker = lines::large_buffer();
    let mut mask = lines::large_buffer();
    let m = lines::buffer_at(line, at, &mut marker);
    let k = lines::buffer_at(line, m.next, &mut mask);
    run(rt, head, target, &marker[..m.value], &mask[..k.value])
}

// A label, or a job and the buffer that it lends.
fn job(rt: &impl Print, line: &[u8]) -> io::Result<()> {
    let Some(&letter) = line.first() else {
        return Ok(());
    };
    if letter == b'#' {
        return show::text(rt, line);
    }
    let head = lines::head_of(letter, line);
    let mut target = lines::large_buffer();
    let t = lines::buffer_at(line, head.next, &mut target);
    given(rt, head, line, t.next, &mut target[..t.value])
}

fn each_line(rt: &impl Print, input: &[u8]) -> io::Result<()> {
    let mut rest = input;
    // a `while`: where a line ends is what `numbers::line_end` promises
    while !rest.is_empty() {
        let (line, after) = rest.split_at(numbers::line_end(rest, 0));
        job(rt, line)?;
        rest = after;
    }
    Ok(())
}

fn main(rt: HostRuntime) -> io::Result<()> {
    let mut input = lines::large_buffer();
    let n = lines::read_full(&mut rt.reader(), &mut input)?;
    each_line(&rt, &input[..n])
}
