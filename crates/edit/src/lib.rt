// Edits of the screen's bytes, over slices and numbers: a range of cells is shifted, erased, filled, copied into a reply.
// Nothing here asks anything of its caller: each function says what it does for every input.
#![tactic(auto)]

pub mod mark;
pub mod range;
pub mod text;
