// The row of a source that a row of an element leads to, and what a fold starts from:
// what one-bit rows and rows of bytes share.
#![tactic(auto)]

ghost use Rattle.std.specs.Prelude.{◌≡◌, length};
ghost use Rattle.basics.specs.Lists.{firsts};
ghost use Rattle.rows.specs.Steps.Ways.{grows_of};
ghost use Rattle.rows.specs.Steps.Fold.{start_by};
ghost use Rattle.rows.specs.Steps.Row.{place_in, source_row};

use picture::Bin;

#[derive(Clone, Copy)]
pub enum Way {
    Erode,
    Dilate,
}

// The way as the definitions have it: whether it is the one that grows.
pub fn is_growing(way: Way) -> bool
    ensures { result ≡ grows_of way }
{
    match way {
        Way::Erode => false,
        Way::Dilate => true,
    }
}

// The place p moved by plus - minus; n where that is not one of 0 to n - 1.
pub fn place_in(n: usize, p: u16, plus: u16, minus: u16) -> usize
    ensures { result ≡ place_in n p plus minus }
{
    let at = (p as usize) + (plus as usize);
    let back = minus as usize;
    if at < back {
        return n;
    }
    (at - back).min(n)
}

// The source row that a row of an element leads to from row y, where dilation goes the other way;
// h where the frame has none.
#[tactic(auto, unfolding(crate::specs::Steps::Row::source_row))]
pub fn source_row(grows: bool, h: usize, y: Bin, origin: Bin, row: Bin) -> usize
    ensures { result ≡ source_row grows h y.0 origin.0 row.0 }
{
    if grows {
        return place_in(h, y.0, origin.0, row.0);
    }
    place_in(h, y.0, row.0, origin.0)
}

// What a fold starts from.
fn start_of(grows: bool, top: u8) -> u8
    ensures { result ≡ start_by grows top }
{
    if grows { 0 } else { top }
}

// A row as a fold starts it: nothing of the source is in it.
pub fn begin(grows: bool, top: u8, t: &mut [u8])
    ensures { t.new ≡ firsts (λ x. start_by grows top) (length t.old) }
{
    t.fill(start_of(grows, top));
}
