// One row of an element folded into a row of bytes: one pass over the row for each set cell.
#![tactic(auto)]

ghost use Rattle.std.specs.Prelude.{◌≡◌, cond, ◌+◌, ◌-◌, ◌*◌, ◌≤◌, ◌<◌, min, length};
ghost use Rattle.element.specs.Descriptor.{most_cells};
ghost use Rattle.element.specs.Record.{cell_on};
ghost use Rattle.rows.specs.Steps.Ways.{weigh_by};
ghost use Rattle.rows.specs.Steps.Fold.{plus_by, minus_by};
ghost use Rattle.rows.specs.Steps.Row.{columns_of, cell_row, folded_row, RowFit};

use element::RowWord;
use picture::Ping;

// How far a lies past b, at most n.
fn past(a: usize, b: usize, n: usize) -> usize
    ensures { result ≡ min (a - b) n }
{
    a.saturating_sub(b).min(n)
}

// One of two numbers: dilation takes an offset the other way round.
fn chosen(first: bool, a: usize, b: usize) -> usize
    ensures { result ≡ cond first a b }
{
    if first { a } else { b }
}

// One cell of a row word, if it is set:
// the columns whose place lies in the row are one part of t, beside one part of s.
fn fold_cell(
    grows: bool,
    t: &mut [u8],
    s: &[u8],
    w: usize,
    word: RowWord,
    cell: Ping,
    origin: Ping,
    g: u8,
)
    requires { (length t.old ≡ w) × ((length s.now ≡ w) × (cell.0 < most_cells)) }
    ensures { t.new
        ≡ cell_row grows (weigh_by grows) g (cell_on word cell.0) t.old
        s.now w (plus_by grows origin.0 cell.0) (minus_by grows origin.0 cell.0) }
{
    if element::cell(word, cell) {
        let c = cell.0 as usize;
        let o = origin.0 as usize;
        let plus = chosen(grows, o, c);
        let minus = chosen(grows, c, o);
        let a = past(minus, plus, w);
        let b = past(plus, minus, w);
        let te = w - b;
        let se = w - a;
        weighing::join_cell(grows, g, &mut t[a..te], &s[b..se]);
        return;
    }
}

// The height of a column, its row's heights standing from the place `at` on; where there are none it is 0.
fn height_at(heights: &[u8], at: usize, column: Ping) -> u8
    requires { at ≤ most_cells * most_cells }
    ensures { result ≡ columns_of heights.now (at + column.0) }
{
    let i = at + column.0 as usize;
    if i < heights.len() { heights[i] } else { 0 }
}

// One row of an element into a row of bytes, its heights from the place `at` on:
// one pass over the row for each set cell of the word.
pub fn fold_row(
    grows: bool,
    t: &mut [u8],
    s: &[u8],
    w: usize,
    word: RowWord,
    wide: usize,
    origin: Ping,
    heights: &[u8],
    at: usize,
)
    requires { RowFit (length t.old) (length s.now) w wide origin.0 at }
    ensures { t.new
        ≡ folded_row grows (weigh_by grows) (λ c. columns_of heights.now (at + c))
        t.old (columns_of s.now) w (cell_on word) wide origin.0 }
{
    for c in 0..wide {
        let column = Ping(c as u16);
        let g = height_at(heights, at, column);
        fold_cell(grows, t, s, w, word, column, origin, g);
    }
}
