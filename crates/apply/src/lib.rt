// A picture by an element that was read, once or twice; crates bitways and byteways choose the way.
// Nothing is judged and nothing is refused here: entry points judge, then apply.
// Each depth has functions of its own, so that an entry point of one bit takes no stack for 8-bit rows.
#![tactic(auto)]

ghost use Rattle.std.specs.Prelude.{◌≡◌, length};
ghost use Rattle.picture.specs.declared.Depth.{Depth};
ghost use Rattle.picture.specs.declared.Depth.TheVariants.{OneBit, EightBit};
ghost use Rattle.picture.specs.Frame.{Holds};
ghost use Rattle.picture.specs.Points.{value_at};
ghost use Rattle.picture.specs.Bytes.{written};
ghost use Rattle.rows.specs.Steps.Ready.{Ready};
ghost use Rattle.apply.specs.Steps.Applied.{flat_of, flat_twice_by, weighted_by, weighted_twice_by};

use element::{Outline, RowWord};
use picture::Depth;

// Erosion, or dilation where it grows, of the one-bit picture in s by a flat element, into t;
// what lies past the picture there stays.
pub fn flat_bits(
    grows: bool,
    s: &[u8],
    t: &mut [u8],
    w: usize,
    h: usize,
    o: Outline,
    words: &[RowWord],
)
    requires ready { Ready OneBit (length s.now) (length words.now) w h o }
    requires holds { Holds OneBit (length t.old) w h }
    ensures { t.new
        ≡ written OneBit (flat_of grows OneBit s.now w h o words.now)
        w h t.old }
{
    bitways::sweep(plan::plan_of(grows, o), &s[..], t, w, h, &words[..]);
}

// The same of an 8-bit picture.
pub fn flat_bytes(
    grows: bool,
    s: &[u8],
    t: &mut [u8],
    w: usize,
    h: usize,
    o: Outline,
    words: &[RowWord],
)
    requires ready { Ready Depth.EightBit (length s.now) (length words.now) w h o }
    requires holds { Holds Depth.EightBit (length t.old) w h }
    ensures { t.new
        ≡ written Depth.EightBit (flat_of grows Depth.EightBit s.now w h o words.now)
        w h t.old }
{
    byteways::sweep(grows, &s[..], t, w, h, o, &words[..]);
}

// The same at either depth.
pub fn flat(
    depth: Depth,
    grows: bool,
    s: &[u8],
    t: &mut [u8],
    w: usize,
    h: usize,
    o: Outline,
    words: &[RowWord],
)
    requires ready { Ready depth (length s.now) (length words.now) w h o }
    requires holds { Holds depth (length t.old) w h }
    ensures { t.new
        ≡ written depth (flat_of grows depth s.now w h o words.now)
        w h t.old }
{
    match depth {
        Depth::OneBit => flat_bits(grows, s, t, w, h, o, words),
        Depth::EightBit => flat_bytes(grows, s, t, w, h, o, words),
    }
}

// The first into the scratch, and the other from there into t:
// opening where erosion is the first, closing where dilation is.
// It calls the ways itself: one function over both depths took qik_gradient1 40 bytes past its stack.
pub fn bits_twice(
    grows: bool,
    s: &[u8],
    t: &mut [u8],
    scratch: &mut [u8],
    w: usize,
    h: usize,
    o: Outline,
    words: &[RowWord],
)
    requires ready { Ready OneBit (length s.now) (length words.now) w h o }
    requires holds { Holds OneBit (length t.old) w h }
    requires holds_2 { Holds OneBit (length scratch.old) w h }
    ensures bytes { t.new
        ≡ written OneBit
        (flat_twice_by grows OneBit w h o words.now (value_at OneBit s.now w))
        w h t.old }
    ensures middle { scratch.new
        ≡ written OneBit (flat_of grows OneBit s.now w h o words.now)
        w h scratch.old }
{
    bitways::sweep(plan::plan_of(grows, o), &s[..], scratch, w, h, &words[..]);
    bitways::sweep(plan::plan_of(!grows, o), &scratch[..], t, w, h, &words[..]);
}

// The same of an 8-bit picture.
pub fn bytes_twice(
    grows: bool,
    s: &[u8],
    t: &mut [u8],
    scratch: &mut [u8],
    w: usize,
    h: usize,
    o: Outline,
    words: &[RowWord],
)
    requires ready { Ready EightBit (length s.now) (length words.now) w h o }
    requires holds { Holds EightBit (length t.old) w h }
    requires holds_2 { Holds EightBit (length scratch.old) w h }
    ensures bytes { t.new
        ≡ written EightBit
        (flat_twice_by grows EightBit w h o words.now (value_at EightBit s.now w))
        w h t.old }
    ensures middle { scratch.new
        ≡ written EightBit (flat_of grows EightBit s.now w h o words.now)
        w h scratch.old }
{
    flat_bytes(grows, s, scratch, w, h, o, words);
    flat_bytes(!grows, &scratch[..], t, w, h, o, words);
}

// The same at either depth.
pub fn flat_twice(
    depth: Depth,
    grows: bool,
    s: &[u8],
    t: &mut [u8],
    scratch: &mut [u8],
    w: usize,
    h: usize,
    o: Outline,
    words: &[RowWord],
)
    requires ready { Ready depth (length s.now) (length words.now) w h o }
    requires holds { Holds depth (length t.old) w h }
    requires holds_2 { Holds depth (length scratch.old) w h }
    ensures bytes { t.new
        ≡ written depth
        (flat_twice_by grows depth w h o words.now (value_at depth s.now w))
        w h t.old }
    ensures middle { scratch.new
        ≡ written depth (flat_of grows depth s.now w h o words.now)
        w h scratch.old }
{
    match depth {
        Depth::OneBit => bits_twice(grows, s, t, scratch, w, h, o, words),
        Depth::EightBit => bytes_twice(grows, s, t, scratch, w, h, o, words),
    }
}

// One of the depths, and what is done at it. A function over `Deep` is compiled once for each,
// so that of one bit takes no stack for 8-bit rows.
pub trait Deep {
    ghost DEPTH: { Depth };

    const DEPTH: Depth;

    fn flat(grows: bool, s: &[u8], t: &mut [u8], w: usize, h: usize, o: Outline, words: &[RowWord])
        requires ready { Ready DEPTH (length s.now) (length words.now) w h o }
        requires holds { Holds DEPTH (length t.old) w h }
        ensures { t.new
            ≡ written DEPTH (flat_of grows DEPTH s.now w h o words.now)
            w h t.old };

    fn twice(
        grows: bool,
        s: &[u8],
        t: &mut [u8],
        scratch: &mut [u8],
        w: usize,
        h: usize,
        o: Outline,
        words: &[RowWord],
    )
        requires ready { Ready DEPTH (length s.now) (length words.now) w h o }
        requires holds { Holds DEPTH (length t.old) w h }
        requires holds_2 { Holds DEPTH (length scratch.old) w h }
        ensures bytes { t.new
            ≡ written DEPTH
            (flat_twice_by grows DEPTH w h o words.now (value_at DEPTH s.now w))
            w h t.old }
        ensures middle { scratch.new
            ≡ written DEPTH (flat_of grows DEPTH s.now w h o words.now)
            w h scratch.old };
}

pub struct Bits;

pub struct Bytes;

impl Deep for Bits {
    ghost DEPTH = { OneBit };

    const DEPTH: Depth = Depth::OneBit;

    fn flat(
        grows: bool,
        s: &[u8],
        t: &mut [u8],
        w: usize,
        h: usize,
        o: Outline,
        words: &[RowWord],
    ) {
        flat_bits(grows, s, t, w, h, o, words);
    }

    fn twice(
        grows: bool,
        s: &[u8],
        t: &mut [u8],
        scratch: &mut [u8],
        w: usize,
        h: usize,
        o: Outline,
        words: &[RowWord],
    ) {
        bits_twice(grows, s, t, scratch, w, h, o, words);
    }
}

impl Deep for Bytes {
    ghost DEPTH = { EightBit };

    const DEPTH: Depth = Depth::EightBit;

    fn flat(
        grows: bool,
        s: &[u8],
        t: &mut [u8],
        w: usize,
        h: usize,
        o: Outline,
        words: &[RowWord],
    ) {
        flat_bytes(grows, s, t, w, h, o, words);
    }

    fn twice(
        grows: bool,
        s: &[u8],
        t: &mut [u8],
        scratch: &mut [u8],
        w: usize,
        h: usize,
        o: Outline,
        words: &[RowWord],
    ) {
        bytes_twice(grows, s, t, scratch, w, h, o, words);
    }
}

// Erosion or dilation of an 8-bit picture by a weighted element,
// whose heights lie row after row in a slice of their own.
pub fn weighted(
    grows: bool,
    s: &[u8],
    t: &mut [u8],
    w: usize,
    h: usize,
    o: Outline,
    words: &[RowWord],
    heights: &[u8],
)
    requires ready { Ready EightBit (length s.now) (length words.now) w h o }
    requires holds { Holds EightBit (length t.old) w h }
    ensures { t.new
        ≡ written EightBit
        (weighted_by grows w h o words.now heights.now (value_at EightBit s.now w))
        w h t.old }
{
    byheight::sweep(grows, s, t, w, h, o, words, heights);
}

// The first into the scratch, and the other from there into t.
pub fn weighted_twice(
    grows: bool,
    s: &[u8],
    t: &mut [u8],
    scratch: &mut [u8],
    w: usize,
    h: usize,
    o: Outline,
    words: &[RowWord],
    heights: &[u8],
)
    requires ready { Ready EightBit (length s.now) (length words.now) w h o }
    requires holds { Holds EightBit (length t.old) w h }
    requires holds_2 { Holds EightBit (length scratch.old) w h }
    ensures bytes { t.new
        ≡ written EightBit
        (weighted_twice_by grows w h o words.now heights.now (value_at EightBit s.now w))
        w h t.old }
    ensures middle { scratch.new
        ≡ written EightBit
        (weighted_by grows w h o words.now heights.now (value_at EightBit s.now w))
        w h scratch.old }
{
    weighted(grows, s, scratch, w, h, o, words, heights);
    weighted(!grows, &scratch[..], t, w, h, o, words, heights);
}
