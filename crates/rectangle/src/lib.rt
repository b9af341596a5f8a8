// A whole picture by a rectangle, at either depth: the rows that a result row sees are joined down the
// columns, two result rows at a time, and then windows along the row.
// Each depth has its loop beside its room: a smaller function would be taken into its caller, and the room
// with it, above whatever else the caller calls.
#![tactic(auto)]

ghost use Rattle.std.specs.Prelude.{◌≡◌, true, false, length};
ghost use Rattle.picture.specs.declared.Depth.TheVariants.{OneBit, EightBit};
ghost use Rattle.picture.specs.Frame.{Holds};
ghost use Rattle.picture.specs.Bytes.{written};
ghost use Rattle.rows.specs.Steps.Ready.{Ready};
ghost use Rattle.plan.specs.Steps.Plan.{outline_by};
ghost use Rattle.boxlaw.specs.Steps.Box.{boxed};

use element::Outline;

// A padded row: what an element reaches before it and past it, and what the last block reads.
const ROOM_BITS: usize = 200;

const ROOM_BYTES: usize = 1224;

// The erosion, or the dilation, of a one-bit picture by a rectangle. What stands in the padding of s never
// counts, and the padding of t is 0.
pub fn bits(grows: bool, s: &[u8], t: &mut [u8], w: usize, h: usize, o: Outline)
    requires ready { Ready OneBit (length s.now) o.h w h o }
    requires holds { Holds OneBit (length t.old) w h }
    ensures { t.new
        ≡ written OneBit (boxed true grows s.now w h o) w h t.old }
{
    let mut b = [0u8; ROOM_BITS];
    let mut y = 0;
    // Two rows a turn, and y says afterwards whether one is left: a `for` by twos would find that out anew.
    while y + 1 < h {
        boxpair::upper(true, grows, &s[..], t, &mut b, w, h, o, y, y + 1);
        boxpair::lower(true, grows, t, &mut b, w, h, o, y + 1);
        y += 2;
    }
    if y < h {
        boxpair::upper(true, grows, &s[..], t, &mut b, w, h, o, y, y);
        return;
    }
}

// The same, the outline in a plan.
pub fn bits_by_plan(grows: bool, s: &[u8], t: &mut [u8], w: usize, h: usize, plan: usize)
    requires ready { Ready OneBit (length s.now) (outline_by plan).h w h (outline_by plan) }
    requires holds { Holds OneBit (length t.old) w h }
    ensures { t.new
        ≡ written OneBit (boxed true grows s.now w h (outline_by plan)) w h t.old }
{
    bits(grows, &s[..], t, w, h, plan::outline_of(plan));
}

// The erosion, or the dilation, of an 8-bit picture.
pub fn bytes(grows: bool, s: &[u8], t: &mut [u8], w: usize, h: usize, o: Outline)
    requires ready { Ready EightBit (length s.now) o.h w h o }
    requires holds { Holds EightBit (length t.old) w h }
    ensures { t.new
        ≡ written EightBit (boxed false grows s.now w h o) w h t.old }
{
    let mut b = [0u8; ROOM_BYTES];
    let mut y = 0;
    // Two rows a turn, and y says afterwards whether one is left: a `for` by twos would find that out anew.
    while y + 1 < h {
        boxpair::upper(false, grows, s, t, &mut b, w, h, o, y, y + 1);
        boxpair::lower(false, grows, t, &mut b, w, h, o, y + 1);
        y += 2;
    }
    if y < h {
        boxpair::upper(false, grows, s, t, &mut b, w, h, o, y, y);
        return;
    }
}
