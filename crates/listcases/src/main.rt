// Runs the jobs of its input, a line each, whose result is a list of numbers: the size spectrum, and which
// echo lies inside which. It prints of each what it answers, and every number of the list.
// tools/cases makes the lines, says what their letters and numbers mean, and makes what must be printed.
#![tactic(auto)]

use std::io;

// The call, and what came of it.
fn run(rt: &impl Print, w: usize, h: usize, source: &[u8], list: &mut [u32]) -> io::Result<()> {
    let nested = nesting::nest(w, h, source, list);
    show::answered(rt, nested.map(|_| ()))?;
    println!(rt; "regions {}", nested.unwrap_or(0))?;
    show::buffer(rt, b"list", list)
}

// The part of the list that is lent.
fn lend(
    rt: &impl Print,
    w: usize,
    h: usize,
    source: &[u8],
    list: &mut [u32],
    n: usize,
) -> io::Result<()> {
    if n <= list.len() {
        return run(rt, w, h, source, &mut list[..n]);
    }
    Ok(())
}

// The call of the size spectrum, and what came of it.
fn run_sizes(
    rt: &impl Print,
    w: usize,
    h: usize,
    source: &[u8],
    counts: &mut [u32],
    scratch: &mut [u8],
) -> io::Result<()> {
    let answer = spectrum::spectrum(w, h, source, counts, scratch);
    show::answered(rt, answer)?;
    show::buffer(rt, b"list", counts)?;
    show::buffer(rt, b"scratch", scratch)
}

fn lend_counts(
    rt: &impl Print,
    w: usize,
    h: usize,
    source: &[u8],
    list: &mut [u32],
    n: usize,
    scratch: &mut [u8],
) -> io::Result<()> {
    if n <= list.len() {
        return run_sizes(rt, w, h, source, &mut list[..n], scratch);
    }
    Ok(())
}

fn sizes_job(
    rt: &impl Print,
    w: usize,
    h: usize,
    source: &[u8],
    n: usize,
    line: &[u8],
    at: usize,
) -> io::Result<()> {
    let mut scratch = lines::large_buffer();
    let s = lines::buffer_at(line, at, &mut scratch);
    let mut list = [7u32; 520];
    lend_counts(rt, w, h, source, &mut list, n, &mut scratch[..s.value])
}

// A label, or a job and the list that it lends, full of sevens.
fn job(rt: &impl Print, line: &[u8]) -> io::Result<()> {
    let Some(&letter) = line.first() else {
        return Ok(());
    };
    if letter == b'#' {
        return show::text(rt, line);
    }
    let head = lines::head_of(letter, line);
    let mut source = lines::large_buffer();
    let s = lines::buffer_at(line, head.next, &mut source);
    if letter == b's' {
        return sizes_job(
            rt,
            head.w,
            head.h,
            &source[..s.value],
            head.links,
            line,
            s.next,
        );
    }
    let mut list = [7u32; 520];
    lend(
        rt,
        head.w,
        head.h,
        &source[..s.value],
        &mut list,
        head.links,
    )
}

fn each_line(rt: &impl Print, input: &[u8]) -> io::Result<()> {
    let mut rest = input;
    // a `while`: where a line ends is what `numbers::line_end` promises
    while !rest.is_empty() {
        let (line, after) = rest.split_at(numbers::line_end(rest, 0));
        job(rt, line)?;
        rest = after;
    }
    Ok(())
}

fn main(rt: HostRuntime) -> io::Result<()> {
    let mut input = lines::large_buffer();
    let n = lines::read_full(&mut rt.reader(), &mut input)?;
    each_line(&rt, &input[..n])
}
