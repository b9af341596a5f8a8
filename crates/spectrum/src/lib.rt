// The size spectrum as a user calls it: how many points survive opening by a square of each side.
// The answer and every lent place are settled for all inputs.
#![tactic(auto)]

ghost use Rattle.std.specs.Prelude.{◌≡◌, [], ◌∷◌, ◌++◌, ◌*◌, ◌≤◌, ltb, length, drop};
ghost use Rattle.basics.specs.Lists.{firsts};
ghost use Rattle.answer.specs.Answer.{told, plain};
ghost use Rattle.answer.specs.Refuse.{refuse};
ghost use Rattle.picture.specs.Frame.{frame, picture_bytes, Holds};
ghost use Rattle.picture.specs.Points.{value_at};
ghost use Rattle.sizes.specs.Spectrum as defined;
ghost use Rattle.spectrum.specs.Calls.{spectrum_answer, counts_left, scratch_left};

use answer::{Answer, Refusal};
use judge::Padding;
use picture::{Depth, Face};

// Squares of side 1 to 32.
const SIDES: usize = 32;

// How many points survive opening by the square of side k. The opening is made in t, a picture's bytes.
fn survivors(k: usize, w: usize, h: usize, source: &[u8], t: &mut [u8]) -> u32
    requires le_k { (1 ≤ k) × (k ≤ 32) }
    requires holds { Holds Depth.OneBit (length source.now) w h }
    requires t_len { length t.old ≡ picture_bytes Depth.OneBit w h }
    ensures { result ≡ defined.survivors (frame w h) (value_at Depth.OneBit source.now w) k }
{
    copies::copy_picture(Depth::OneBit, Face::AsIs, source, t, w, h);
    squares::sweep(false, t, w, h, k);
    squares::sweep(true, t, w, h, k);
    squares::count(&t[..]) as u32
}

// The 32 counts, each what one side keeps less what the next one keeps; further places stay.
fn count_sides(w: usize, h: usize, source: &[u8], counts: &mut [u32], t: &mut [u8])
    requires holds { Holds Depth.OneBit (length source.now) w h }
    requires in_bounds { 32 ≤ length counts.old }
    requires t_len { length t.old ≡ picture_bytes Depth.OneBit w h }
    ensures { counts.new
        ≡ defined.spectrum (frame w h) (value_at Depth.OneBit source.now w)
        ++ drop 32 counts.old }
{
    let mut here = survivors(1, w, h, source, t);
    for i in 0..SIDES - 1 {
        let next = survivors(i + 2, w, h, source, t);
        counts[i] = here - next;
        here = next;
    }
    counts[SIDES - 1] = here;
}

// The counts; and the two pictures of the scratch are left all 0.
fn make(w: usize, h: usize, source: &[u8], counts: &mut [u32], scratch: &mut [u8])
    requires holds { Holds Depth.OneBit (length source.now) w h }
    requires in_bounds { 32 ≤ length counts.old }
    requires h_in_bounds { 2 * picture_bytes Depth.OneBit w h ≤ length scratch.old }
    ensures counts { counts.new
        ≡ defined.spectrum (frame w h) (value_at Depth.OneBit source.now w)
        ++ drop 32 counts.old }
    ensures scratch { scratch.new
        ≡ firsts (λ i. 0) (2 * picture_bytes Depth.OneBit w h)
        ++ drop (2 * picture_bytes Depth.OneBit w h) scratch.old }
{
    let n = h * picture::row_bytes(Depth::OneBit, w);
    count_sides(w, h, source, counts, &mut scratch[..n]);
    let m = 2 * n;
    rows::begin(true, 255, &mut scratch[..m]);
}

// ROOM where the list has fewer than 32 places.
fn list_room(n: usize) -> Answer
    ensures { told result ≡ refuse ((ltb n 32, 8) ∷ []) (plain 0) }
{
    if n < SIDES {
        return Err(Refusal::Room);
    }
    Ok(())
}

// The counts of a one-bit picture's points by the side of the largest square whose opening they survive.
pub fn spectrum(w: usize, h: usize, source: &[u8], counts: &mut [u32], scratch: &mut [u8]) -> Answer
    ensures answer { told result
        ≡ spectrum_answer w h source.now (length counts.old)
        (length scratch.old) }
    ensures counts { counts.new
        ≡ counts_left w h source.now (length scratch.old) counts.old }
    ensures scratch { scratch.new
        ≡ scratch_left w h source.now (length counts.old) scratch.old }
{
    let list = list_room(counts.len());
    let half = scratch.len() / 2;
    judge::refusal(Padding::Free, Depth::OneBit, w, h, source, list, 0, half)?;
    make(w, h, source, counts, scratch);
    Ok(())
}
