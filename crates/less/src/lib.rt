// One picture less another, made in the target:
// of one bit set difference, of 8 bits the difference held at 0.
#![tactic(auto)]

ghost use Rattle.std.specs.Prelude.{◌≡◌, ◌≤◌, length};
ghost use Rattle.basics.specs.Zip.{zip_in};
ghost use Rattle.picture.specs.Frame.{Holds};
ghost use Rattle.picture.specs.Points.{value_at};
ghost use Rattle.picture.specs.Bytes.{written};
ghost use Rattle.less.specs.Steps.Sides.{less_byte, less_by, less_from};

use picture::Depth;

// From which of the two the other is taken away.
#[derive(Clone, Copy)]
pub enum From {
    Target,
    Other,
}

// A byte of one value, held at 0, or of eight points: a less b.
fn less_byte(depth: Depth, a: u8, b: u8) -> u8
    ensures { result ≡ less_byte depth a b }
{
    match depth {
        Depth::OneBit => a & !b,
        Depth::EightBit => a.saturating_sub(b),
    }
}

fn less_by(depth: Depth, from: From, t: u8, s: u8) -> u8
    ensures { result ≡ less_by depth from t s }
{
    match from {
        From::Target => less_byte(depth, t, s),
        From::Other => less_byte(depth, s, t),
    }
}

// Each byte of t and the one beside it, by an unconditional store, which is compiled to vector instructions.
fn less_bytes(depth: Depth, from: From, t: &mut [u8], by: &[u8])
    requires { length by.now ≤ length t.old }
    ensures { t.new ≡ zip_in (less_by depth from) t.old by.now }
{
    for i in 0..by.len() {
        t[i] = less_by(depth, from, t[i], by[i]);
    }
}

// The target becomes itself less the other, or the other less itself; its padding is 0, whatever theirs was.
pub fn subtract(depth: Depth, from: From, w: usize, h: usize, other: &[u8], target: &mut [u8])
    requires holds { Holds depth (length other.now) w h }
    requires holds_2 { Holds depth (length target.old) w h }
    ensures { target.new
        ≡ written depth
        (less_from from (value_at depth target.old w) (value_at depth other.now w))
        w h target.old }
{
    let m = h * picture::row_bytes(depth, w);
    less_bytes(depth, from, target, &other[..m]);
    copies::clear_padding(depth, target, w, h);
}
