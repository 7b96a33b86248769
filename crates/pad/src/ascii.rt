// Characters by their names in ASCII.
pub const BS: u8 = 8;

pub const LF: u8 = 10;

pub const CR: u8 = 13;

pub const XON: u8 = 17;

pub const XOFF: u8 = 19;

// The control characters are below it.
pub const SPACE: u8 = 32;

pub const TILDE: u8 = 126;

pub const DEL: u8 = 127;
