// Subcommands as they come: the frame that they are read by, the bytes held, what a code means and which ERROR it draws.
#![tactic(auto)]

pub mod character;
pub mod code;
pub mod facility;
pub mod fault;
pub mod frame;
pub mod held;
mod meaning;
pub mod number;
pub mod sent;
