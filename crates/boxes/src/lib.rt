// Whether an element is a rectangle.
#![tactic(auto)]

ghost use Rattle.std.specs.Prelude.{◌≡◌, ◌≤◌, length};
ghost use Rattle.boxes.specs.Steps.Box.{is_box};

use element::{Outline, RowWord};

// Each of the element's rows is the run of all its cells.
pub fn is_box(words: &[RowWord], o: Outline) -> bool
    requires { o.h ≤ length words.now }
    ensures { result ≡ is_box words.now o.h o.w }
{
    let run = packedline::run_word(o.w);
    // Row by row, as the promise is: tried with `all` of the words, and its proof did not close.
    for r in 0..o.h {
        if words[r] != run {
            return false;
        }
    }
    true
}
