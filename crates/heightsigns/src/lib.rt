// The cells of one row of a weighted element, those that raise apart from those that do not.
#![tactic(auto)]

ghost use Rattle.std.specs.Prelude.{◌≡◌, cond, true, false, ◌+◌, ◌*◌, ◌≤◌, ◌<◌, length, get_or};
ghost use Rattle.element.specs.Descriptor.{most_cells};
ghost use Rattle.heightsigns.specs.Steps.Sides.{rises_of, side_of, size_of};
ghost use Rattle.heightsigns.specs.Steps.Taken.{taken_of, count_of, cells_of};

use element::RowWord;
use picture::Ping;

// A height is a byte: 1 to 127 raise, 0 changes nothing, 129 to 255 stand for -127 to -1.
fn is_rising(g: u8) -> bool
    ensures { result ≡ rises_of g }
{
    if g == 0 {
        return false;
    }
    g < element::SIGN_BIT
}

fn on_side(rises: bool, g: u8) -> bool
    ensures { result ≡ side_of rises g }
{
    if rises {
        return is_rising(g);
    }
    !is_rising(g)
}

// How far a height is from 0.
fn size_of(g: u8) -> u8
    ensures { (result ≡ size_of g) × (result ≤ 128) }
{
    if g < element::SIGN_BIT {
        g
    } else {
        255 - g + 1
    }
}

// The byte at i, or 0, a flat element's height, where there is none.
fn height_at(heights: &[u8], i: usize) -> u8
    ensures { result ≡ get_or heights.now i 0 }
{
    if i < heights.len() { heights[i] } else { 0 }
}

// 1 where the cell is set and its height is of the side that is asked for: a number, for it is added.
fn takes(word: RowWord, column: Ping, rises: bool, g: u8) -> usize
    requires { column.0 < most_cells }
    ensures { result ≡ cond (taken_of word column.0 rises g) 1 0 }
{
    if element::cell(word, column) {
        if on_side(rises, g) {
            return 1;
        }
    }
    0
}

// A cell as one number: the size of its height, and 256 times its place.
fn entry(place: usize, size: u8) -> u16
    requires { (place < 128) × (size ≤ 128) }
    ensures { result ≡ 256 * place + size }
{
    256 * (place as u16) + (size as u16)
}

// How many cells of a row raise, and how many do not.
#[derive(Clone, Copy)]
pub struct Counts {
    pub rising: usize,
    pub others: usize,
}

// The set cells of a row word, whose heights stand from the place `first` on, each side into its own list;
// it gives how many they are. A cell's number is stored in both lists, and counted in one where it is taken.
pub fn cells_both(
    rising: &mut [u16],
    others: &mut [u16],
    grows: bool,
    word: RowWord,
    wide: usize,
    o: usize,
    heights: &[u8],
    first: usize,
) -> Counts
    requires o_lt_most_cells { (o < most_cells) × ((wide ≤ most_cells) × (first ≤ most_cells * most_cells)) }
    requires wide_in_bounds { (wide ≤ length rising.old) × (wide ≤ length others.old) }
    ensures counts { (result.rising ≡ count_of true word heights.now first wide)
        × (result.others ≡ count_of false word heights.now first wide) }
    ensures up { rising.new
        ≡ cells_of grows true word o heights.now first rising.old wide }
    ensures down { others.new
        ≡ cells_of grows false word o heights.now first others.old wide }
{
    let mut n = 0;
    let mut m = 0;
    for c in 0..wide {
        let g = height_at(heights, first + c);
        let k = entry(packedline::cell_place(grows, o, c), size_of(g));
        rising[n] = k;
        others[m] = k;
        n += takes(word, Ping(c as u16), true, g);
        m += takes(word, Ping(c as u16), false, g);
    }
    Counts {
        rising: n,
        others: m,
    }
}
