// What an attribute byte says of its cell.
ghost use Rattle.std.specs.Prelude.{◌≡◌};
ghost use Rattle.screen.specs.Attributes.{protection, protection_number};

use crate::attribute::protection;

// The document's term "protection".
#[derive(Clone, Copy, Debug, PartialEq, Eq)]
pub enum Protection {
    Unprotected,
    Protected,
    Alphabetic,
    Numeric,
}

impl Protection {
    pub fn of(attr: u8) -> Protection
        ensures { protection_number result ≡ protection attr }
    {
        match protection(attr) {
            0 => Protection::Unprotected,
            1 => Protection::Protected,
            2 => Protection::Alphabetic,
            _ => Protection::Numeric,
        }
    }
}
