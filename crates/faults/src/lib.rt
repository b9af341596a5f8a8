// The chain check on elements by value:
// the first offset, in row order, at which an element and the chain of its links part.
#![tactic(auto)]

ghost use Rattle.std.specs.Prelude.{◌≡◌, ◌≤◌, ◌<◌, take};
ghost use Rattle.answer.specs.Answer.{told};
ghost use Rattle.element.specs.Descriptor.{most_cells};
ghost use Rattle.element.specs.Record.{shape_by};
ghost use Rattle.morphology.specs.Chain.{most_links, Chained};
ghost use Rattle.morphology.specs.Check.{has_test, path_test, check_of};
ghost use Rattle.reach.specs.Steps.Links.{shapes_of, place_of, OneByte, Linked};
ghost use Rattle.reach.specs.Steps.Boards.{holds_of, Small};
ghost use Rattle.faults.specs.Verdicts.{answer_of};
ghost use Rattle.faults.specs.Steps.Scan.{fault_by, offset_no, all_offsets};

use answer::{Answer, CENTRE, Refusal};
use element::{MOST_CELLS, Outline, RowWord};
use picture::Ping;
use reach::{Link, MOST_LINKS, Offset, SUMS, Sum};

// No offset of an element and no sum of a chain lies further from 0.
const FAR: usize = 63;

// Where such an offset stands at the least, how many there are in a row, and in all.
const LEAST: usize = CENTRE - FAR;

const ROW: usize = FAR + 1 + FAR;

const ALL: usize = ROW * ROW;

// The element has the offset.
fn has(cells: &[RowWord; MOST_CELLS], outline: Outline, at: Offset) -> bool
    requires w_le_most_cells { (outline.w ≤ most_cells) × (outline.h ≤ most_cells) }
    requires one_byte { OneByte at }
    ensures { result ≡ has_test (shape_by outline cells.now) (place_of at) }
{
    let origin = outline.origin;
    let p = origin.ping;
    let b = origin.bin;
    let column = at.x + p.0 as usize;
    let row = at.y + b.0 as usize;
    if column < CENTRE {
        return false;
    }
    if row < CENTRE {
        return false;
    }
    if outline.w <= column - CENTRE {
        return false;
    }
    if outline.h <= row - CENTRE {
        return false;
    }
    element::cell(cells[row - CENTRE], Ping((column - CENTRE) as u16))
}

// The offset is at fault, by the board of all sums, on which `zero` stands for the offset (0, 0).
// A path is looked for only where the element has the offset and it is a sum.
fn at_fault(
    cells: &[RowWord; MOST_CELLS],
    outline: Outline,
    words: &[u64; SUMS],
    zero: Sum,
    links: [Link; MOST_LINKS],
    k: usize,
    at: Offset,
) -> bool
    requires w_le_most_cells { (outline.w ≤ most_cells) × (outline.h ≤ most_cells) }
    requires small { Small zero }
    requires linked { Linked links k }
    requires one_byte { OneByte at }
    ensures { result ≡ fault_by (has_test (shape_by outline cells.now) (place_of at))
        (holds_of words.now zero at) (path_test (shapes_of (take k links)) (place_of at)) }
{
    let sum = reach::holds(words, zero, at);
    if has(cells, outline, at) {
        if sum {
            return !paths::path(links, k, at);
        }
        return true;
    }
    sum
}

// The offsets from -FAR to FAR, row after row, by number.
fn offset_no(n: usize) -> Offset
    requires { n < all_offsets }
    ensures { (result ≡ offset_no n) × OneByte result }
{
    Offset {
        x: LEAST + n % ROW,
        y: LEAST + n / ROW,
    }
}

// The check of an element and the first k of its links.
pub fn check(
    outline: Outline,
    cells: &[RowWord; MOST_CELLS],
    links: [Link; MOST_LINKS],
    k: usize,
) -> Answer
    requires chained { Chained (shape_by outline cells.now) (shapes_of (take k links)) }
    requires k_le_most_links { k ≤ most_links }
    ensures { told result ≡ told
        (answer_of (check_of (shape_by outline cells.now) (shapes_of (take k links)))) }
{
    let sums = paths::all_sums(links, k);
    let words = sums.words;
    for n in 0..ALL {
        let at = offset_no(n);
        if at_fault(cells, outline, &words, sums.origin, links, k, at) {
            return Err(Refusal::Split(at.x as u8, at.y as u8));
        }
    }
    Ok(())
}
