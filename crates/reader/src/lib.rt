// The element of a descriptor: read, or SHAPE.
#![tactic(auto)]

ghost use Rattle.std.specs.Prelude.{◌≡◌, true, cond, Ok, Err, ◌+◌, ◌*◌, ◌≤◌, length};
ghost use Rattle.answer.specs.declared.Refusal.TheVariants.{Shape};
ghost use Rattle.element.specs.Descriptor.{most_cells, cells_made, well_made};
ghost use Rattle.element.specs.Record.{element_of};
ghost use Rattle.element.specs.Steps.Words.{word_byte, word_of, row_words};

use answer::Refusal;
use element::{Element, MOST_CELLS, Outline, RowWord};
use picture::Depth;

// Byte j of a row of n bytes, 0 past them.
#[tactic(auto, unfolding(element::specs::Steps::Words::word_byte))]
fn byte_or_none(d: &[u8], at: usize, n: usize, j: usize) -> RowWord
    requires { at + n ≤ length d.now }
    ensures { result ≡ word_byte d.now at n j }
{
    if j < n { RowWord::from(d[at + j]) } else { 0 }
}

// The row of n bytes from the place `at` on as a row word.
fn word_at(d: &[u8], at: usize, n: usize) -> RowWord
    requires { at + n ≤ length d.now }
    ensures { result ≡ word_of d.now at n }
{
    let mut v: RowWord = 0;
    for j in 0..MOST_CELLS / 8 {
        v = (v << 8) | byte_or_none(d, at, n, j);
    }
    v
}

// The words of h rows of n bytes, 0 past them.
fn words_of(d: &[u8], n: usize, h: usize) -> [RowWord; MOST_CELLS]
    requires { (h ≤ most_cells) × (4 + h * n ≤ length d.now) }
    ensures { result ≡ row_words d.now n h }
{
    let mut rows = [0; MOST_CELLS];
    for r in 0..h {
        let at = 4 + r * n;
        rows[r] = word_at(d, at, n);
    }
    rows
}

// The size and origin of an element whose cells are well made.
#[tactic(auto, using(element::proofs::WellMade::cells_tell), unfolding(element::specs::Record::element_of))]
pub fn outline_at(d: &[u8]) -> Outline
    requires { cells_made d.now ≡ true }
    ensures { result ≡ (element_of d.now).outline }
{
    let w = usize::from(d[0]);
    let h = usize::from(d[1]);
    let origin = element::origin_of(d);
    Outline { w, h, origin }
}

// Its row words.
#[tactic(auto, using(element::proofs::WellMade::cells_tell), unfolding(element::specs::Record::element_of))]
pub fn rows_at(d: &[u8]) -> [RowWord; MOST_CELLS]
    requires { cells_made d.now ≡ true }
    ensures { result ≡ (element_of d.now).rows }
{
    let w = usize::from(d[0]);
    let h = usize::from(d[1]);
    words_of(d, picture::row_bytes(Depth::OneBit, w), h)
}

// The element of bytes whose cells are well made.
#[tactic(auto, unfolding(element::specs::Record::element_of))]
pub fn element_at(d: &[u8]) -> Element
    requires { cells_made d.now ≡ true }
    ensures { result ≡ element_of d.now }
{
    let outline = outline_at(d);
    let rows = rows_at(d);
    Element { outline, rows }
}

// The element of an unweighted descriptor, or SHAPE.
pub fn read_element(d: &[u8]) -> Result<Element, Refusal>
    ensures { result ≡ cond (well_made d.now) (Ok (element_of d.now)) (Err Shape) }
{
    if descriptor::well_made(d) {
        return Ok(element_at(d));
    }
    Err(Refusal::Shape)
}
