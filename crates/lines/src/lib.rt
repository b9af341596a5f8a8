// Lines of jobs, as the programs of worked cases read them: a letter, numbers, and buffers.
// tools/cases makes the lines, and says what their letters and numbers mean.
#![tactic(auto)]

ghost use Rattle.std.specs.Prelude.{◌≡◌, ◌<◌, length, take, IfOk};
ghost use Rattle.std.specs.Io.KnownBytes.{Consumes, IsAtEnd};
ghost use Rattle.io.specs.Counts.{IsPrefixLen};
ghost use Rattle.lines.specs.Buffers.{last_with, buffer_at, filled_at};
ghost use Rattle.lines.specs.Heads.{depth_of, head_of};

use numbers::Found;
use picture::Depth;
use std::io::{Read, Result};

// The room that lines and their buffers are read into.
pub use io::{buffer, large_buffer};

// A job as its line begins, and where its buffers are.
#[derive(Clone, Copy)]
pub struct Head {
    pub letter: u8,
    pub depth: Depth,
    pub w: usize,
    pub h: usize,
    pub links: usize,
    pub next: usize,
}

// The input to its end, as far as there is room for it: how many bytes it has put at the start of b.
// Fewer than there is room for are read only where the input has ended; one that fails gives its error.
pub fn read_full<R: Read>(input: &mut R, b: &mut [u8]) -> Result<usize>
    ensures counts { IfOk result (λ n. IsPrefixLen n b.new) }
    ensures bytes { IfOk result
        (λ n. Consumes (R.remaining input.old) (R.remaining input.new) (take n b.new)) }
    ensures end { IfOk result (λ n. n < length b.new → IsAtEnd (R.remaining input.new)) }
{
    let mut done = 0;
    // a `while`: a read gives as many bytes as it likes, so that no range counts the reads
    while done < b.len() {
        let n = input.read(&mut b[done..])?;
        if n == 0 {
            return Ok(done);
        }
        done += n;
    }
    Ok(done)
}

// The number that byte i of a buffer is: the next of the line, or past the first m the last one again.
fn last_with(line: &[u8], m: usize, i: usize, last: Found) -> Found
    ensures { result ≡ last_with line.now m i last }
{
    if i < m {
        return numbers::number_at(line, last.next);
    }
    last
}

// A buffer at the start of b, as far as there is room for it: its length, and where the next one is.
pub fn buffer_at(line: &[u8], at: usize, b: &mut [u8]) -> Found
    ensures read { result ≡ buffer_at line.now at (length b.old) }
    ensures bytes { b.new ≡ filled_at line.now at b.old }
    ensures counts { IsPrefixLen result.value b.new }
{
    let n = numbers::number_at(line, at);
    let m = numbers::number_at(line, n.next);
    let count = m.value;
    let k = basics::lesser(n.value, b.len());
    let mut last = Found {
        value: 0,
        next: m.next,
    };
    for i in 0..k {
        last = last_with(line, count, i, last);
        b[i] = (last.value % 0x100) as u8;
    }
    Found {
        value: k,
        next: last.next,
    }
}

fn depth_of(bits: usize) -> Depth
    ensures { result ≡ depth_of bits }
{
    if bits == 1 {
        return Depth::OneBit;
    }
    Depth::EightBit
}

// A letter and a space, then four numbers.
pub fn head_of(letter: u8, line: &[u8]) -> Head
    ensures { result ≡ head_of letter line.now }
{
    let d = numbers::number_at(line, 2);
    let w = numbers::number_at(line, d.next);
    let h = numbers::number_at(line, w.next);
    let k = numbers::number_at(line, h.next);
    let depth = depth_of(d.value);
    Head {
        letter,
        depth,
        w: w.value,
        h: h.value,
        links: k.value,
        next: k.next,
    }
}
