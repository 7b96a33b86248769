// Which calls are let in: what they are refused for, in document 01's order, the refusals' numbers, and opening a session.
#![tactic(auto)]

pub mod edition;
pub mod number;
pub mod open;
pub mod refuse;
