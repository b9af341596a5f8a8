// Runs the histories of its input, a line each, and prints of each call what it answers,
// of a get the bytes too, and at the end every byte of the book.
// tools/cases makes the lines, says what their letters and numbers mean, and makes what must be printed.
#![tactic(auto)]

use book::Party;
use std::io;

fn party_of(who: usize) -> Party {
    match who {
        1 => Party::Export,
        _ => Party::Display,
    }
}

fn got(rt: &impl Print, book: &[u8], party: Party, n: usize) -> io::Result<()> {
    show::answered(rt, book::find(book, party, n).map(|_| ()))?;
    show::buffer(rt, b"got", book::get(book, party, n))
}

// Byte n becomes the first of the element's: a book that is damaged.
fn damaged(book: &mut [u8], n: usize, element: &[u8]) {
    if n < book.len() && 0 < element.len() {
        book[n] = element[0];
    }
}

// One call, by its number in the line.
fn call(
    rt: &impl Print,
    party: Party,
    what: usize,
    book: &mut [u8],
    n: usize,
    element: &[u8],
) -> io::Result<()> {
    match what {
        1 => show::answered(rt, book::start(book)),
        2 => show::answered(rt, book::put(book, party, n, element)),
        3 => show::answered(rt, book::remove(book, party, n)),
        4 => show::answered(rt, book::tidy(book, party)),
        5 => got(rt, &book[..], party, n),
        _ => {
            damaged(book, n, element);
            Ok(())
        }
    }
}

// A call of a line, and where the next one is.
fn one(rt: &impl Print, line: &[u8], at: usize, book: &mut [u8]) -> io::Result<usize> {
    let who = numbers::number_at(line, at);
    let what = numbers::number_at(line, who.next);
    let n = numbers::number_at(line, what.next);
    let mut element = lines::buffer();
    let e = lines::buffer_at(line, n.next, &mut element);
    let party = party_of(who.value);
    call(rt, party, what.value, book, n.value, &element[..e.value])?;
    Ok(e.next)
}

fn each_call(
    rt: &impl Print,
    line: &[u8],
    at: usize,
    calls: usize,
    book: &mut [u8],
) -> io::Result<()> {
    let mut next = at;
    for _ in 0..calls {
        next = one(rt, line, next, book)?;
    }
    Ok(())
}

// The calls, and what came of them.
fn run(rt: &impl Print, line: &[u8], at: usize, calls: usize, book: &mut [u8]) -> io::Result<()> {
    each_call(rt, line, at, calls, book)?;
    show::buffer(rt, b"book", book)
}

// A label, or a history and the buffer that it lends.
fn history(rt: &impl Print, line: &[u8]) -> io::Result<()> {
    let Some(&letter) = line.first() else {
        return Ok(());
    };
    if letter == b'#' {
        return show::text(rt, line);
    }
    let head = lines::head_of(letter, line);
    let mut book = lines::buffer();
    let b = lines::buffer_at(line, head.next, &mut book);
    run(rt, line, b.next, head.links, &mut book[..b.value])
}

fn each_line(rt: &impl Print, input: &[u8]) -> io::Result<()> {
    let mut rest = input;
    // a `while`: where a line ends is what `numbers::line_end` promises
    while !rest.is_empty() {
        let (line, after) = rest.split_at(numbers::line_end(rest, 0));
        history(rt, line)?;
        rest = after;
    }
    Ok(())
}

fn main(rt: HostRuntime) -> io::Result<()> {
    let mut input = lines::large_buffer();
    let n = lines::read_full(&mut rt.reader(), &mut input)?;
    each_line(&rt, &input[..n])
}
