// What a host byte or a key is decided to do, from the session and the attribute bytes alone: nothing here sees a character.
#![tactic(auto)]

mod change;
mod cursor;
pub mod decision;
pub mod keys;
pub mod negotiate;
pub mod obey;
pub mod text;
mod transmit;
mod view;
