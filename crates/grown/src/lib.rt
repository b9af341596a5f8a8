// No code but the choice of neighbours:
// the definitions of what a marker grows to inside a mask, and their laws.

#![tactic(auto)]

// The cross: the four points beside a point, along its row and along its column.
// The square: the four aslant too.
#[derive(Clone, Copy)]
pub enum Neighbours {
    Cross,
    Square,
}
