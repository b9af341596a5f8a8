// A put and a remove in one share of an element book.
#![tactic(auto)]

ghost use Rattle.std.specs.Prelude.{◌≡◌, ◌+◌, ◌*◌, ◌/◌, ◌%◌, ◌≤◌, length, set};
ghost use Rattle.std.proofs.Math.Seq.{paste};
ghost use Rattle.answer.specs.Answer.{told};
ghost use Rattle.share.specs.Share.{held_at, holding};
ghost use Rattle.share.specs.Maps.{with, Put, Remove, map_answer};
ghost use Rattle.share.specs.Work.{share_after};
ghost use Rattle.share.specs.Steps.Moves.{Fits, Whole};

use answer::{Answer, Refusal};

// The bytes d, from the place `at` on. A loop: of std's copy_from_slice a call of memmove is made here, which
// the library asks for nowhere else, and a board may lack.
fn copy_in(s: &mut [u8], at: usize, d: &[u8])
    requires { at + length d.now ≤ length s.old }
    ensures { s.new
        ≡ paste s.old at d.now (length d.now) }
{
    for i in 0..d.len() {
        s[at + i] = d[i];
    }
}

// The length k for number n.
fn set_length(s: &mut [u8], n: usize, k: usize)
    requires { (2 * n + 2 ≤ length s.old) × (k ≤ 65535) }
    ensures { s.new ≡ set (set s.old (2 * n) (k % 256)) (2 * n + 1) (k / 256) }
{
    s[2 * n] = (k % 256) as u8;
    s[2 * n + 1] = (k / 256) as u8;
}

// The share with d under number n in the place of what it holds there: the gap closed, the new one opened.
fn replace(s: &mut [u8], numbers: usize, n: usize, d: &[u8])
    requires { Fits numbers n s.old d.now }
    ensures { s.new
        ≡ holding numbers (with (held_at numbers s.old) n d.now) s.old }
{
    let at = 2 * numbers + share::total(&s[..], n);
    let next = at + share::length_at(&s[..], n);
    let all = 2 * numbers + share::total(&s[..], numbers);
    let end = at + d.len();
    s.copy_within(next..all, end);
    copy_in(s, at, d);
    set_length(s, n, d.len());
}

// The refusal of a put, of a share that keeps the layout.
#[tactic(auto, using(crate::proofs::Refusals::putting), unfolding(answer::specs::Answer::told))]
fn put_refusal(s: &[u8], numbers: usize, room: usize, n: usize, d: &[u8]) -> Answer
    requires { Whole numbers room s.now }
    ensures { told result
        ≡ map_answer numbers room (held_at numbers s.now) (Put n d.now) }
{
    if numbers <= n {
        return Err(Refusal::Absent);
    }
    if !descriptor::well_made(d) {
        return Err(Refusal::Shape);
    }
    let live = share::total(s, numbers) - share::length_at(s, n);
    if room - live < d.len() {
        return Err(Refusal::Full);
    }
    Ok(())
}

// The descriptor d under number n.
pub fn put(s: &mut [u8], numbers: usize, room: usize, n: usize, d: &[u8]) -> Answer
    requires { Whole numbers room s.old }
    ensures answer { told result
        ≡ map_answer numbers room (held_at numbers s.old) (Put n d.now) }
    ensures bytes { s.new
        ≡ share_after numbers room s.old (Put n d.now) }
{
    put_refusal(&s[..], numbers, room, n, d)?;
    replace(s, numbers, n, d);
    Ok(())
}

// What number n holds, given up.
pub fn remove(s: &mut [u8], numbers: usize, room: usize, n: usize) -> Answer
    requires { Whole numbers room s.old }
    ensures answer { told result ≡ map_answer numbers room (held_at numbers s.old) (Remove n) }
    ensures bytes { s.new ≡ share_after numbers room s.old (Remove n) }
{
    share::absent_refusal(&s[..], numbers, room, n)?;
    replace(s, numbers, n, &[]);
    Ok(())
}
