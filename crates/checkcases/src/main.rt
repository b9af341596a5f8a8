// Runs the jobs of its input, a line each: checks of chains, of which it prints what they answer,
// the finder, of which it prints the picture, and the search for a chain, of which it prints the chain.
// tools/cases makes the lines, says what their letters and numbers mean, and makes what must be printed.
#![tactic(auto)]

use answer::{Answer, Refusal};
use chainfor::Unfound;
use lines::Head;
use picture::Depth;
use std::io;

// The check of a chain, and what it answers.
fn checked(rt: &impl Print, line: &[u8], at: usize, k: usize) -> io::Result<()> {
    let mut element = lines::buffer();
    let mut chain = lines::buffer();
    let e = lines::buffer_at(line, at, &mut element);
    let c = lines::buffer_at(line, e.next, &mut chain);
    let a: Answer = chain::check_chain(&element[..e.value], k, &chain[..c.value]);
    show::answered(rt, a)
}

// The last picture of a run, in two buffers.
fn found(rt: &impl Print, head: Head, line: &[u8]) -> io::Result<()> {
    let depth: Depth = head.depth;
    let mut first = lines::buffer();
    let mut second = lines::buffer();
    let a = lines::buffer_at(line, head.next, &mut first);
    let b = lines::buffer_at(line, a.next, &mut second);
    show::buffer(
        rt,
        b"last",
        finder::last_picture(
            &first[..a.value],
            &second[..b.value],
            depth,
            head.w,
            head.h,
            head.links,
        ),
    )
}

fn flag(rt: &impl Print, name: &[u8], n: usize) -> io::Result<()> {
    show::text(rt, name)?;
    rt.print(n)?;
    show::text(rt, b"\n")
}

fn written(rt: &impl Print, said: Answer, links: usize, bytes: usize) -> io::Result<()> {
    show::answered(rt, said)?;
    flag(rt, b"links ", links)?;
    flag(rt, b"bytes ", bytes)
}

// The search for a chain: what it answers, its links, its bytes, whether it gave up, and the lent buffer.
fn search(rt: &impl Print, element: &[u8], chain: &mut [u8]) -> io::Result<()> {
    match chainfor::find_chain(element, chain) {
        Ok(found) => written(rt, Ok(()), found.links, found.bytes)?,
        Err(Unfound::Refused(r)) => written(rt, Err(r), 0, 0)?,
        Err(Unfound::GaveUp) => {
            written(rt, Err(Refusal::NoChain), 0, 0)?;
            show::text(rt, b"gave up\n")?;
        }
    }
    show::buffer(rt, b"chain", &chain[..])
}

fn searched(rt: &impl Print, line: &[u8], at: usize) -> io::Result<()> {
    let mut element = lines::buffer();
    let mut chain = lines::buffer();
    let e = lines::buffer_at(line, at, &mut element);
    let c = lines::buffer_at(line, e.next, &mut chain);
    search(rt, &element[..e.value], &mut chain[..c.value])
}

// A label, or a job.
fn job(rt: &impl Print, line: &[u8]) -> io::Result<()> {
    let Some(&letter) = line.first() else {
        return Ok(());
    };
    if letter == b'#' {
        return show::text(rt, line);
    }
    let head = lines::head_of(letter, line);
    if letter == b'f' {
        return found(rt, head, line);
    }
    if letter == b'c' {
        return searched(rt, line, head.next);
    }
    checked(rt, line, head.next, head.links)
}

fn each_line(rt: &impl Print, input: &[u8]) -> io::Result<()> {
    let mut rest = input;
    // a `while`: where a line ends is what `numbers::line_end` promises
    while !rest.is_empty() {
        let (line, after) = rest.split_at(numbers::line_end(rest, 0));
        job(rt, line)?;
        rest = after;
    }
    Ok(())
}

fn main(rt: HostRuntime) -> io::Result<()> {
    let mut input = lines::large_buffer();
    let n = lines::read_full(&mut rt.reader(), &mut input)?;
    each_line(&rt, &input[..n])
}
