// The three operations for programs in other languages: numbers and byte slices only.
#![tactic(auto)]

pub mod calls;
