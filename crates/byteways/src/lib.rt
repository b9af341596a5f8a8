// The ways that an 8-bit picture goes by a flat element: as a rectangle, straight from the source, by source
// rows. Which one is a matter of time alone: the promise is the same.
#![tactic(auto)]

ghost use Rattle.std.specs.Prelude.{◌≡◌, length};
ghost use Rattle.picture.specs.Frame.{Holds, frame};
ghost use Rattle.picture.specs.Points.{value_at};
ghost use Rattle.picture.specs.Bytes.{written};
ghost use Rattle.element.specs.Record.{shape_by};
ghost use Rattle.morphology.specs.Operations.{flat};
ghost use Rattle.rows.specs.Steps.Ready.{Ready};
ghost use Rattle.rows.specs.Steps.Ways.{swept_by};

use element::{Outline, RowWord};
use picture::Depth;

// Any flat element. A few cells are soonest taken straight from the source; where they are
// many, the windows of a source row are made once for all the rows that see it.
fn sweep_any(grows: bool, s: &[u8], t: &mut [u8], w: usize, h: usize, o: Outline, words: &[RowWord])
    requires ready { Ready Depth.EightBit (length s.now) (length words.now) w h o }
    requires holds { Holds Depth.EightBit (length t.old) w h }
    ensures { t.new
        ≡ written Depth.EightBit
        (swept_by grows flat 255 (frame w h) (shape_by o words.now)
        (value_at Depth.EightBit s.now w)) w h t.old }
{
    if few::sweep(grows, &s[..], t, w, h, o, &words[..]) {
        return;
    }
    // a call for each way: a function with one call is taken into its caller, and its room with it
    if grows {
        bysource::sweep(true, &s[..], t, w, h, o, &words[..]);
        return;
    }
    bysource::sweep(false, &s[..], t, w, h, o, &words[..]);
}

// The erosion, or the dilation, of the 8-bit picture in s by a flat element: a rectangle goes its own way.
// What lies past the picture in t stays.
pub fn sweep(grows: bool, s: &[u8], t: &mut [u8], w: usize, h: usize, o: Outline, words: &[RowWord])
    requires ready { Ready Depth.EightBit (length s.now) (length words.now) w h o }
    requires holds { Holds Depth.EightBit (length t.old) w h }
    ensures { t.new
        ≡ written Depth.EightBit
        (swept_by grows flat 255 (frame w h) (shape_by o words.now)
        (value_at Depth.EightBit s.now w)) w h t.old }
{
    // a single cell is a copy
    if 2 < o.w + o.h {
        if boxes::is_box(&words[..], o) {
            // a call for each way, as above
            if grows {
                rectangle::bytes(true, &s[..], t, w, h, o);
                return;
            }
            rectangle::bytes(false, &s[..], t, w, h, o);
            return;
        }
    }
    sweep_any(grows, &s[..], t, w, h, o, &words[..]);
}
