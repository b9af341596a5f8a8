// One packed row of a one-bit result by all the rows of an element: no point is unpacked.
#![tactic(auto)]

ghost use Rattle.std.specs.Prelude.{◌≡◌, ◌<◌, length};
ghost use Rattle.picture.specs.Frame.{row_bytes};
ghost use Rattle.rows.specs.Steps.Ready.{Ready};
ghost use Rattle.bitrow.specs.Steps.Row.{bit_row};
ghost use Rattle.bitrow.specs.Steps.Added.{masked_of, added_bits};

use element::{Outline, RowWord};
use picture::{Bin, Depth};

// What becomes of the source: taken as it is or turned over, then dilated, which grows, or eroded.
#[derive(Clone, Copy)]
pub struct Task {
    pub over: bool,
    pub grows: bool,
}

// The first `wide` cells of a row word: what stands past them never counts.
fn masked(word: RowWord, wide: usize) -> RowWord
    ensures { result ≡ masked_of word wide }
{
    word & packedline::run_word(wide)
}

// One row of the element, if the source row that it leads to from row y lies in the frame.
fn add_row(
    k: Task,
    t: &mut [u8],
    s: &[u8],
    w: usize,
    h: usize,
    y: Bin,
    o: Outline,
    words: &[RowWord],
    row: Bin,
)
    requires ready { Ready Depth.OneBit (length s.now) (length words.now) w h o }
    requires t_len { (length t.old ≡ row_bytes Depth.OneBit w) × ((y.0 < h) × (row.0 < o.h)) }
    ensures { t.new
        ≡ added_bits k s.now w h o words.now y.0 t.old row.0 }
{
    let origin = o.origin;
    let v = rows::source_row(k.grows, h, y, origin.bin, row);
    if v < h {
        let r = row.0 as usize;
        let column = origin.ping;
        let n = t.len();
        let a = v * n;
        let z = a + n;
        let word = masked(words[r], o.w);
        let c = column.0 as usize;
        // a call for each way: of one call alone the compiler makes one function with the loop over the rows,
        // which takes more stack than both
        if k.grows {
            packedline::line(k.over, true, t, &s[a..z], w, word, c);
            return;
        }
        packedline::line(k.over, false, t, &s[a..z], w, word, c);
        return;
    }
}

// Row y of the erosion, or the dilation, of the one-bit picture in s, as it is or turned over.
// What stands in the padding of s never counts, and the padding of t is 0.
pub fn make_row(
    k: Task,
    t: &mut [u8],
    s: &[u8],
    w: usize,
    h: usize,
    y: Bin,
    o: Outline,
    words: &[RowWord],
)
    requires ready { Ready Depth.OneBit (length s.now) (length words.now) w h o }
    requires t_len { (length t.old ≡ row_bytes Depth.OneBit w) × (y.0 < h) }
    ensures { t.new ≡ bit_row k s.now w h o words.now y.0 }
{
    rows::begin(k.grows, 255, t);
    for r in 0..o.h {
        add_row(k, t, s, w, h, y, o, words, Bin(r as u16));
    }
    let n = t.len();
    packedline::blot(true, t, n - 1, w);
}
