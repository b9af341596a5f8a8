// What the programs of worked cases print: labels, answers, and every byte of a buffer.
// No contract can say what is printed; the gate holds each program to its file stdout.
#![tactic(auto)]

use answer::{Answer, Refusal};
use std::fmt::Display;
use std::io;

pub fn text(rt: &impl Print, s: &[u8]) -> io::Result<()> {
    rt.write_all(s)
}

// A run of a list: n values x.
fn run<T: Copy + Display>(rt: &impl Print, n: usize, x: T) -> io::Result<()> {
    if 1 < n {
        return print!(rt; " {n}*{x}");
    }
    print!(rt; " {x}")
}

// A name, and a list or a buffer: n*x is n values x.
pub fn buffer<T: Copy + PartialEq + Display>(
    rt: &impl Print,
    name: &[u8],
    b: &[T],
) -> io::Result<()> {
    text(rt, name)?;
    let mut rest = b;
    while let Some((&x, after)) = rest.split_first() {
        let like = after.iter().position(|y| *y != x).unwrap_or(after.len());
        let others = &after[like..];
        run(rt, rest.len() - others.len(), x)?;
        rest = others;
    }
    print!(rt; "\n")
}

// The number of an answer, and of a split the offset at fault.
pub fn answered(rt: &impl Print, a: Answer) -> io::Result<()> {
    let t = answer::tell(a);
    if let Err(Refusal::Split(_, _)) = a {
        return println!(rt; "answer {} {} {}", t.number, t.dx, t.dy);
    }
    println!(rt; "answer {}", t.number)
}
