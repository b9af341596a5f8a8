// One row of an 8-bit result by all the rows of an element, flat or weighted.
#![tactic(auto)]

ghost use Rattle.std.specs.Prelude.{◌≡◌, ◌<◌, length};
ghost use Rattle.picture.specs.Points.{value_at};
ghost use Rattle.rows.specs.Steps.Ready.{Ready};
ghost use Rattle.rows.specs.Steps.Ways.{weigh_by};
ghost use Rattle.rows.specs.Steps.Row.{added_row};
ghost use Rattle.byterow.specs.Steps.Row.{heightened_by, byte_row};

use element::{Outline, RowWord};
use picture::{Bin, Depth};

// One row of the element, if the source row that it leads to from row y lies in the frame.
// Its heights begin after those of the rows before.
fn add_row(
    grows: bool,
    t: &mut [u8],
    s: &[u8],
    w: usize,
    h: usize,
    y: Bin,
    o: Outline,
    words: &[RowWord],
    heights: &[u8],
    row: Bin,
)
    requires ready { Ready Depth.EightBit (length s.now) (length words.now) w h o }
    requires t_len { (length t.old ≡ w) × ((y.0 < h) × (row.0 < o.h)) }
    ensures { t.new
        ≡ added_row grows (weigh_by grows) w h (heightened_by o words.now heights.now)
        (value_at Depth.EightBit s.now w) y.0 t.old row.0 }
{
    let origin = o.origin;
    let v = rows::source_row(grows, h, y, origin.bin, row);
    if v < h {
        let r = row.0 as usize;
        let a = v * w;
        let z = a + w;
        cellrow::fold_row(
            grows,
            t,
            &s[a..z],
            w,
            words[r],
            o.w,
            origin.ping,
            heights,
            r * o.w,
        );
        return;
    }
}

// Row y of the erosion, or the dilation, of the 8-bit picture in s.
// No bytes of heights are an element of height 0.
pub fn make_row(
    grows: bool,
    t: &mut [u8],
    s: &[u8],
    w: usize,
    h: usize,
    y: Bin,
    o: Outline,
    words: &[RowWord],
    heights: &[u8],
)
    requires ready { Ready Depth.EightBit (length s.now) (length words.now) w h o }
    requires t_len { (length t.old ≡ w) × (y.0 < h) }
    ensures { t.new
        ≡ byte_row grows s.now w h o words.now heights.now y.0 }
{
    rows::begin(grows, 255, t);
    for r in 0..o.h {
        add_row(grows, t, s, w, h, y, o, words, heights, Bin(r as u16));
    }
}
