// Whether two elements share an offset. Offsets are compared and not cells, since origins may differ.
#![tactic(auto)]

ghost use Rattle.std.specs.Prelude.{◌≡◌, ◌≤◌, ◌<◌, length};
ghost use Rattle.element.specs.Descriptor.{most_cells};
ghost use Rattle.element.specs.Record.{shape_by};
ghost use Rattle.morphology.specs.Overlap.{shared};
ghost use Rattle.overlap.specs.Steps.Shared.{cell_shared, row_shared, line_shared};

use element::{Outline, RowWord};
use picture::{Bin, Ping};

// A set cell of a row whose offset a set cell of the other element's row beside it has too.
fn cell_shared(word: RowWord, beside: RowWord, first: Outline, second: Outline, cell: Ping) -> bool
    requires { (cell.0 < most_cells) × (second.w ≤ most_cells) }
    ensures { result ≡ cell_shared word beside first second cell.0 }
{
    if element::cell(word, cell) {
        let from = first.origin;
        let to = second.origin;
        let p = from.ping;
        let q = to.ping;
        let c = rows::place_in(second.w, cell.0, q.0, p.0);
        if second.w <= c {
            return false;
        }
        element::cell(beside, Ping(c as u16))
    } else {
        false
    }
}

fn row_shared(word: RowWord, beside: RowWord, first: Outline, second: Outline) -> bool
    requires { (first.w ≤ most_cells) × (second.w ≤ most_cells) }
    ensures { result ≡ row_shared word beside first second }
{
    for c in 0..first.w {
        if cell_shared(word, beside, first, second, Ping(c as u16)) {
            return true;
        }
    }
    false
}

// A row of an element beside the row of the other that stands for its offset.
fn line_shared(
    first: Outline,
    words: &[RowWord],
    second: Outline,
    others: &[RowWord],
    row: Bin,
) -> bool
    requires { (first.w ≤ most_cells)
        × ((second.w ≤ most_cells) × ((second.h ≤ length others.now) × (row.0 < length words.now))) }
    ensures { result ≡ line_shared first words.now second others.now row.0 }
{
    let from = first.origin;
    let to = second.origin;
    let p = from.bin;
    let q = to.bin;
    let v = rows::place_in(second.h, row.0, q.0, p.0);
    if second.h <= v {
        return false;
    }
    let r = row.0 as usize;
    row_shared(words[r], others[v], first, second)
}

// Some offset is one of both elements.
pub fn offset_shared(first: Outline, words: &[RowWord], second: Outline, others: &[RowWord]) -> bool
    requires w_le_most_cells { (first.w ≤ most_cells)
        × ((first.h ≤ most_cells) × (first.h ≤ length words.now)) }
    requires w_le_most_cells_2 { (second.w ≤ most_cells)
        × ((second.h ≤ most_cells) × (second.h ≤ length others.now)) }
    ensures { result
        ≡ shared (shape_by first words.now) (shape_by second others.now) }
{
    for r in 0..first.h {
        if line_shared(first, words, second, others, Bin(r as u16)) {
            return true;
        }
    }
    false
}
