// A one-bit picture by a flat element, a source row at a time, eight points at once:
// the rooms of a packed row, and what else its depth has of its own; the rest is crate bysource's.
#![tactic(auto)]

ghost use Rattle.std.specs.Prelude.{◌≡◌, ◌≤◌, length};
ghost use Rattle.picture.specs.declared.Depth.{Depth};
ghost use Rattle.picture.specs.Frame.{most_pings, Holds, frame};
ghost use Rattle.picture.specs.Points.{value_at};
ghost use Rattle.picture.specs.Bytes.{written};
ghost use Rattle.element.specs.Record.{shape_by};
ghost use Rattle.plan.specs.Steps.Plan.{outline_by, grows_by};
ghost use Rattle.morphology.specs.Operations.{flat};
ghost use Rattle.rows.specs.Steps.Ready.{Ready};
ghost use Rattle.rows.specs.Steps.Ways.{swept_by};
ghost use Rattle.bysource.specs.Steps.Filled.{RoomsOf, RoomsFit};
ghost use Rattle.bitrooms.specs.Steps.Points.{bits_way, bits_join};
ghost use Rattle.bitparts.specs.Steps.Filled.{padded_in, cells_in, runs_in, bits_filled};
ghost use Rattle.bitparts.specs.Steps.Points.{bit_rooms, bits_far, bits_scan, windows_of};

use blocks::BLOCK;
use bysource::Scan;
use element::{Outline, RowWord};
use picture::Depth;
use rooms::Lane;

// Bytes: those of a padded row before the row, where the second room begins, and both rooms.
const SIDE: usize = 8;

const ROOM: usize = 154;

const ROOMS: usize = 308;

// The most bytes of windows: the last block of three lies over the second, so that it ends within the room.
const WINDOWS: usize = 152;

// Bytes of eight points each, the places in points.
pub struct Bits;

impl Lane for Bits {
    ghost way = { bits_way };

    ghost joins = { bits_join };

    fn join_place(grows: bool, c: [u8; BLOCK], b: &[u8], i: usize, p: usize) -> [u8; BLOCK] {
        bitrooms::join_place(grows, c, b, i, p)
    }
}

// As many bytes of windows as the last place of the row reaches, and 12 places more.
fn windows(w: usize) -> usize
    requires { w ≤ most_pings }
    ensures { result ≡ windows_of w }
{
    (BLOCK * ((w + 650) / 512)).min(WINDOWS)
}

// The row of w points from the place `at` on, its padding as beyond the frame.
fn pad(grows: bool, b: &mut [u8], at: usize, s: &[u8], w: usize)
    requires fit { RoomsFit Depth.OneBit grows bit_rooms b.old (length s.now) w }
    requires at_bound { at ≤ 162 }
    ensures { b.new ≡ padded_in grows at s.now w }
{
    let n = s.len();
    packedline::copy_over(false, b, at, s);
    packedline::blot(grows, b, at + n - 1, w);
}

// Single points in the first room, windows of two in the second.
fn fill_cells(grows: bool, b: &mut [u8], s: &[u8], w: usize)
    requires fit { RoomsFit Depth.OneBit grows bit_rooms b.old (length s.now) w }
    ensures shown { RoomsOf Depth.OneBit grows 0 s.now w (bits_far w) b.new }
    ensures bytes { b.new ≡ cells_in grows s.now w }
{
    pad(grows, b, SIDE, s, w);
    rooms::widen::<Bits>(grows, b, 0, ROOM, windows(w), 1, 1, 1);
}

// Windows of 4 in the first room, windows of 16 in the second.
fn fill_runs(grows: bool, b: &mut [u8], s: &[u8], w: usize)
    requires fit { RoomsFit Depth.OneBit grows bit_rooms b.old (length s.now) w }
    ensures shown { RoomsOf Depth.OneBit grows 1 s.now w (bits_far w) b.new }
    ensures bytes { b.new ≡ runs_in grows s.now w }
{
    let n = windows(w);
    pad(grows, b, ROOM + SIDE, s, w);
    rooms::widen::<Bits>(grows, b, ROOM, 0, n, 1, 2, 3);
    rooms::widen::<Bits>(grows, b, 0, ROOM, n, 4, 8, 12);
}

impl Scan for Bits {
    ghost depth = { Depth.OneBit };

    ghost rooms = { bit_rooms };

    ghost far = { bits_far };

    ghost filled = { bits_filled };

    ghost scans = { bits_scan };

    fn depth() -> Depth {
        Depth::OneBit
    }

    fn fill_rooms(grows: bool, b: &mut [u8], s: &[u8], w: usize, k: usize) {
        if k == 0 {
            return fill_cells(grows, b, s, w);
        }
        fill_runs(grows, b, s, w);
    }
}

// The erosion, or the dilation, of the one-bit picture in s by a flat element;
// what lies past the picture in t stays. What stands in the padding of s never counts; that of t is 0.
pub fn sweep(grows: bool, s: &[u8], t: &mut [u8], w: usize, h: usize, o: Outline, words: &[RowWord])
    requires ready { Ready Depth.OneBit (length s.now) (length words.now) w h o }
    requires holds { Holds Depth.OneBit (length t.old) w h }
    ensures { t.new
        ≡ written Depth.OneBit
        (swept_by grows flat 1 (frame w h) (shape_by o words.now)
        (value_at Depth.OneBit s.now w)) w h t.old }
{
    bysource::sweep_rows::<Bits, ROOMS>(grows, s, t, w, h, o, words);
}

// The same, the operation and the outline in a plan.
pub fn sweep_by_plan(plan: usize, s: &[u8], t: &mut [u8], w: usize, h: usize, words: &[RowWord])
    requires ready { Ready Depth.OneBit (length s.now) (length words.now) w h (outline_by plan) }
    requires holds { Holds Depth.OneBit (length t.old) w h }
    ensures { t.new
        ≡ written Depth.OneBit
        (swept_by (grows_by plan) flat 1 (frame w h) (shape_by (outline_by plan) words.now)
        (value_at Depth.OneBit s.now w)) w h t.old }
{
    let o = plan::outline_of(plan);
    let grows = plan::grows_of(plan);
    sweep(grows, &s[..], t, w, h, o, &words[..]);
}
