// Typing at an X.3 PAD (RFC 1053): what a key is, what it does to the edit line, what goes out and what is echoed. It knows nothing
// of screens, nor of Telnet's framing.
#![tactic(auto)]

pub mod echo;
pub mod key;
pub mod out;
