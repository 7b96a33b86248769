// The codes of the Telnet commands (RFC 854), by name: bytes of the stream. The four that an option follows are a `Verb` too.
pub const SE: u8 = 240;

pub const SB: u8 = 250;

pub const WILL: u8 = 251;

pub const WONT: u8 = 252;

pub const DO: u8 = 253;

pub const DONT: u8 = 254;

pub const IAC: u8 = 255;
