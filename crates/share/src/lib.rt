// One share of an element book, as its own bytes: N lengths of two bytes, then M bytes for the descriptors.
#![tactic(auto)]

ghost use Rattle.std.specs.Prelude.{◌≡◌, ◌+◌, ◌*◌, ◌≤◌, length};
ghost use Rattle.answer.specs.Answer.{told};
ghost use Rattle.basics.specs.Tests.{all};
ghost use Rattle.share.specs.Share.{sum_to, length_at, place_of, held_at, entry_made, share_made};
ghost use Rattle.share.specs.Maps.{Get, Tidy, map_answer};
ghost use Rattle.share.specs.Work.{share_after};
ghost use Rattle.share.specs.Steps.Moves.{Within, Whole};

use answer::{Answer, Refusal};

// The length that stands for number n.
#[tactic(auto, unfolding(crate::specs::Share::length_at))]
pub fn length_at(s: &[u8], n: usize) -> usize
    requires { 2 * n + 2 ≤ length s.now }
    ensures { (result ≡ length_at s.now n) × (result ≤ 65535) }
{
    usize::from(s[2 * n]) + 256 * usize::from(s[2 * n + 1])
}

// The sum of the lengths of the numbers below n.
#[tactic(auto, unfolding(crate::specs::Share::sum_to))]
pub fn total(s: &[u8], n: usize) -> usize
    requires { (n ≤ 255) × (2 * n ≤ length s.now) }
    ensures { (result ≡ sum_to (length_at s.now) n) × (result ≤ 65535 * n) }
{
    let mut t = 0;
    for i in 0..n {
        t += length_at(s, i);
    }
    t
}

// What stands under one number.
#[tactic(auto, unfolding(crate::specs::Share::held_at, crate::specs::Share::place_of))]
fn entry_made(s: &[u8], numbers: usize, n: usize) -> bool
    requires { Within numbers n s.now }
    ensures { result ≡ entry_made numbers s.now n }
{
    let k = length_at(s, n);
    if k == 0 {
        return true;
    }
    let at = 2 * numbers + total(s, n);
    let end = at + k;
    descriptor::well_made(&s[at..end])
}

// What stands under each number.
fn entries_made(s: &[u8], numbers: usize) -> bool
    requires { (numbers ≤ 255) × (2 * numbers + sum_to (length_at s.now) numbers ≤ length s.now) }
    ensures { result ≡ all (entry_made numbers s.now) numbers }
{
    (0..numbers).all(|n| entry_made(s, numbers, n))
}

// The layout of a share.
#[tactic(auto, unfolding(crate::specs::Share::share_made))]
pub fn made(s: &[u8], numbers: usize, room: usize) -> bool
    requires { (numbers ≤ 255) × (length s.now ≡ 2 * numbers + room) }
    ensures { result ≡ share_made numbers room s.now }
{
    total(s, numbers) <= room && entries_made(s, numbers)
}

// The refusal of a get or a remove.
#[tactic(auto, using(crate::proofs::Checks::absence), unfolding(answer::specs::Answer::told))]
pub fn absent_refusal(s: &[u8], numbers: usize, room: usize, n: usize) -> Answer
    requires { Whole numbers room s.now }
    ensures { told result ≡ map_answer numbers room (held_at numbers s.now) (Get n) }
{
    if numbers <= n || length_at(s, n) == 0 {
        return Err(Refusal::Absent);
    }
    Ok(())
}

// The spare bytes to 0.
pub fn tidy(s: &mut [u8], numbers: usize, room: usize)
    requires { Whole numbers room s.old }
    ensures { s.new ≡ share_after numbers room s.old Tidy }
{
    let spare = 2 * numbers + total(&s[..], numbers);
    s[spare..].fill(0);
}

// Where number n lies in a share.
#[tactic(auto, using(crate::proofs::Sums::sum_within), unfolding(crate::specs::Share::place_of))]
pub fn place_of(s: &[u8], numbers: usize, n: usize) -> usize
    requires { Within numbers n s.now }
    ensures { (result ≡ place_of numbers s.now n) × (result ≤ length s.now) }
{
    2 * numbers + total(s, n)
}
