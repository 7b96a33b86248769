// The screen of a data entry terminal: cells and fields, over slices and numbers. It knows nothing of Telnet.
// Nothing here asks anything of its caller: each function says what it does for every input.
#![tactic(auto)]

pub mod attribute;
mod block;
pub mod cell;
pub mod class;
pub mod field;
pub mod next_open;
pub mod protection;
pub mod record;
pub mod scan;
pub mod start;
