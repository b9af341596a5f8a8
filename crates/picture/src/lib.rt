// The floor that every picture stands on:
// pings and bins kept apart by kind, sizes, points in packed rows by shifts and masks.
#![tactic(auto)]

ghost use Rattle.std.specs.Prelude.{◌≡◌, cond, ◌≤◌};
ghost use Rattle.picture.specs.Frame.{most_pings, sized_frame, row_bytes, picture_bytes};

// The limits: pings across, bins down.
pub const MOST_PINGS: usize = 1024;

pub const MOST_BINS: usize = 256;

// A column and a row: two kinds, so that neither passes for the other.
#[derive(Clone, Copy)]
pub struct Ping(pub u16);

#[derive(Clone, Copy)]
pub struct Bin(pub u16);

#[derive(Clone, Copy)]
pub struct Point {
    pub ping: Ping,
    pub bin: Bin,
}

#[derive(Clone, Copy)]
pub enum Depth {
    OneBit,
    EightBit,
}

// A picture as it is, or with echo and no echo exchanged.
#[derive(Clone, Copy)]
pub enum Face {
    AsIs,
    TurnedOver,
}

// The frame is within the limits.
#[tactic(auto, unfolding(crate::specs::Frame::sized_frame))]
pub fn sized(w: usize, h: usize) -> bool
    ensures { result ≡ sized_frame w h }
{
    (1..=MOST_PINGS).contains(&w) && (1..=MOST_BINS).contains(&h)
}

pub fn row_bytes(depth: Depth, w: usize) -> usize
    requires { w ≤ most_pings }
    ensures { result ≡ row_bytes depth w }
{
    match depth {
        Depth::OneBit => (w + 7) >> 3,
        Depth::EightBit => w,
    }
}

// The bytes of a whole picture; 0 for a frame beyond the limits.
pub fn picture_bytes(depth: Depth, w: usize, h: usize) -> usize
    ensures { result ≡ cond (sized_frame w h) (picture_bytes depth w h) 0 }
{
    if sized(w, h) {
        h * row_bytes(depth, w)
    } else {
        0
    }
}
