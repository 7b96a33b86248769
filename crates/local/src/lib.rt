// Typing edited locally: what the X.3 PAD does in the session. It is told what the reader told, reads the messages of option 30, and
// takes keys into its edit line.
#![tactic(auto)]

pub mod message;
pub mod told;
pub mod typed;
