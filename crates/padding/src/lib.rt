// The unused low bits of a one-bit row's last byte.
#![tactic(auto)]

ghost use Rattle.std.specs.Prelude.{◌≡◌, ◌*◌, ◌≤◌, length};
ghost use Rattle.picture.specs.Frame.{most_pings, spare_bits, Holds};
ghost use Rattle.picture.specs.Bytes.{lasts_clear, padding_clear};

use picture::Depth;

// The unused low bits of a row's last byte.
pub fn spare_bits(depth: Depth, w: usize) -> usize
    requires { w ≤ most_pings }
    ensures { result ≡ spare_bits depth w }
{
    match depth {
        Depth::OneBit => ((w + 7) >> 3) * 8 - w,
        Depth::EightBit => 0,
    }
}

// The last byte of each of h rows of n bytes is a multiple of m.
#[tactic(auto, using(basics::proofs::Tests::walk), unfolding(picture::specs::Bytes::lasts_clear))]
fn lasts_clear(s: &[u8], n: usize, m: u8, h: usize) -> bool
    requires { (1 ≤ n) × ((1 ≤ m) × (h * n ≤ length s.now)) }
    ensures { result ≡ lasts_clear s.now n m h }
{
    for y in 0..h {
        let last = y * n + (n - 1);
        if s[last] % m != 0 {
            return false;
        }
    }
    true
}

// The padding of a picture's rows is 0.
pub fn padding_clear(depth: Depth, s: &[u8], w: usize, h: usize) -> bool
    requires { Holds depth (length s.now) w h }
    ensures { result ≡ padding_clear depth s.now w h }
{
    let n = picture::row_bytes(depth, w);
    let u = spare_bits(depth, w);
    lasts_clear(s, n, 1 << u, h)
}
