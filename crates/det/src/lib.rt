// The data entry terminal: host bytes and one key. Each decides first, from the session and the attribute bytes alone, and only
// then touches the characters: a function that decides has no `chars` parameter.
#![tactic(auto)]

mod apply;
mod data;
pub mod operation;
mod start;
mod take;
