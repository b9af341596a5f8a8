// Hit-or-miss of one-bit pictures as a user calls it:
// the answer and every lent byte are settled for all inputs.
#![tactic(auto)]

ghost use Rattle.std.specs.Prelude.{◌≡◌, true, ◌<◌, length};
ghost use Rattle.std.specs.Int.Bits.{bit_and};
ghost use Rattle.answer.specs.Answer.{told, plain};
ghost use Rattle.answer.specs.Refuse.{refuse};
ghost use Rattle.basics.specs.Zip.{zip_in};
ghost use Rattle.picture.specs.Frame.{row_bytes, Holds};
ghost use Rattle.picture.specs.Bytes.{written};
ghost use Rattle.element.specs.Descriptor.{cells_made, well_made, shape_in};
ghost use Rattle.morphology.specs.Overlap.{shared};
ghost use Rattle.rows.specs.Steps.Ready.{Ready};
ghost use Rattle.hit.specs.Hit.{pair_tests, hit_answer, hit_left};
ghost use Rattle.hit.specs.Steps.Rows.{hit_at, hit_row};

use answer::{Answer, Refusal};
use bitrow::Task;
use element::{Outline, RowWord};
use judge::Padding;
use picture::{Bin, Depth};

// Each byte of t with only those bits that the byte beside it has too.
fn meet(t: &mut [u8], by: &[u8])
    requires { length by.now ≡ length t.old }
    ensures { t.new ≡ zip_in bit_and t.old by.now }
{
    for i in 0..by.len() {
        t[i] = t[i] & by[i];
    }
}

// Row y of hit-or-miss: the hit row, and beside it the miss row of the picture turned over within the frame.
fn hit_row(
    t: &mut [u8],
    s: &[u8],
    w: usize,
    h: usize,
    y: Bin,
    hit: Outline,
    hits: &[RowWord],
    miss: Outline,
    misses: &[RowWord],
)
    requires ready { Ready Depth.OneBit (length s.now) (length hits.now) w h hit }
    requires ready_2 { Ready Depth.OneBit (length s.now) (length misses.now) w h miss }
    requires t_len { (length t.old ≡ row_bytes Depth.OneBit w) × (y.0 < h) }
    ensures { t.new
        ≡ hit_row s.now w h hit hits.now miss misses.now y.0 }
{
    let as_is = Task {
        over: false,
        grows: false,
    };
    let over = Task {
        over: true,
        grows: false,
    };
    narrow::any_row(as_is, t, s, w, h, y, hit, hits);
    let n = t.len();
    let mut row = [0u8; picture::MOST_PINGS / 8];
    narrow::any_row(over, &mut row[..n], s, w, h, y, miss, misses);
    meet(t, &row[..n]);
}

// The whole picture, row by row; what lies past it in t stays.
fn hit_rows(
    s: &[u8],
    t: &mut [u8],
    w: usize,
    h: usize,
    hit: Outline,
    hits: &[RowWord],
    miss: Outline,
    misses: &[RowWord],
)
    requires ready { Ready Depth.OneBit (length s.now) (length hits.now) w h hit }
    requires ready_2 { Ready Depth.OneBit (length s.now) (length misses.now) w h miss }
    requires holds { Holds Depth.OneBit (length t.old) w h }
    ensures { t.new
        ≡ written Depth.OneBit
        (hit_at s.now w h hit hits.now miss misses.now) w h
        t.old }
{
    let n = picture::row_bytes(Depth::OneBit, w);
    for y in 0..h {
        let a = y * n;
        let z = a + n;
        hit_row(
            &mut t[a..z],
            s,
            w,
            h,
            Bin(y as u16),
            hit,
            hits,
            miss,
            misses,
        );
    }
}

// Two well made descriptors share an offset. Their elements are held here alone.
fn is_shared(hit: &[u8], miss: &[u8]) -> bool
    requires hit_value { cells_made hit.now ≡ true }
    requires miss_value { cells_made miss.now ≡ true }
    ensures { result ≡ shared (shape_in hit.now) (shape_in miss.now) }
{
    let first = reader::outline_at(hit);
    let hits = reader::rows_at(hit);
    let second = reader::outline_at(miss);
    let misses = reader::rows_at(miss);
    overlap::offset_shared(first, &hits, second, &misses)
}

// What two descriptors answer: hit before miss, then the overlap.
fn pair_answer(hit: &[u8], miss: &[u8]) -> Answer
    ensures { told result
        ≡ refuse
        (pair_tests (well_made hit.now) (well_made miss.now)
        (shared (shape_in hit.now) (shape_in miss.now))) (plain 0) }
{
    let one = descriptor::well_made(hit);
    if !one {
        return Err(Refusal::Shape);
    }
    let two = descriptor::well_made(miss);
    if !two {
        return Err(Refusal::Shape);
    }
    if is_shared(hit, miss) {
        return Err(Refusal::Overlap);
    }
    Ok(())
}

// Hit-or-miss of the one-bit w x h picture in the source by the elements of two descriptors, into the target.
pub fn hit_or_miss(
    w: usize,
    h: usize,
    source: &[u8],
    hit: &[u8],
    miss: &[u8],
    target: &mut [u8],
) -> Answer
    ensures answer { told result
        ≡ hit_answer w h source.now hit.now
        miss.now (length target.old) }
    ensures bytes { target.new
        ≡ hit_left w h source.now hit.now
        miss.now (length target.old)
        target.old }
{
    let shape = pair_answer(hit, miss);
    let room = target.len();
    judge::refusal(Padding::Free, Depth::OneBit, w, h, source, shape, 0, room)?;
    let first = reader::outline_at(hit);
    let hits = reader::rows_at(hit);
    let second = reader::outline_at(miss);
    let misses = reader::rows_at(miss);
    hit_rows(source, target, w, h, first, &hits, second, &misses);
    Ok(())
}
