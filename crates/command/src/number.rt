// The numbers of the protocol, by the names that the papers give them.
ghost use Rattle.std.specs.Prelude.{◌≡◌};
ghost use Rattle.rules.specs.Number.{fault_number};

use rules::Fault;

// The options DET and X.3 PAD.
pub const DET: u8 = 20;

pub const X3: u8 = 30;

// Commands, received or sent, go by document 01's codes; an edition may have another code for one (`code`). 0 is none. They stay numbers,
// since the tables hold the papers' own; what a received one means is an enum, `Command`.
pub(crate) const NONE: u8 = 0;

pub const EDIT_FACILITIES: u8 = 1;

pub const ERASE_FACILITIES: u8 = 2;

pub const TRANSMIT_FACILITIES: u8 = 3;

pub const FORMAT_FACILITIES: u8 = 4;

pub(crate) const MOVE_CURSOR: u8 = 5;

pub(crate) const SKIP_TO_LINE: u8 = 6;

pub(crate) const SKIP_TO_CHAR: u8 = 7;

pub(crate) const UP: u8 = 8;

pub(crate) const DOWN: u8 = 9;

pub(crate) const LEFT: u8 = 10;

pub(crate) const RIGHT: u8 = 11;

pub(crate) const HOME: u8 = 12;

pub(crate) const LINE_INSERT: u8 = 13;

pub(crate) const LINE_DELETE: u8 = 14;

pub(crate) const CHAR_INSERT: u8 = 15;

pub(crate) const CHAR_DELETE: u8 = 16;

pub(crate) const READ_CURSOR: u8 = 17;

pub(crate) const CURSOR_POSITION: u8 = 18;

pub(crate) const REVERSE_TAB: u8 = 19;

pub(crate) const TRANSMIT_SCREEN: u8 = 20;

pub(crate) const TRANSMIT_UNPROTECTED: u8 = 21;

pub(crate) const TRANSMIT_LINE: u8 = 22;

pub(crate) const TRANSMIT_FIELD: u8 = 23;

pub(crate) const TRANSMIT_REST_OF_SCREEN: u8 = 24;

pub(crate) const TRANSMIT_REST_OF_LINE: u8 = 25;

pub(crate) const TRANSMIT_REST_OF_FIELD: u8 = 26;

pub(crate) const TRANSMIT_MODIFIED: u8 = 27;

pub(crate) const DATA_TRANSMIT: u8 = 28;

pub(crate) const ERASE_SCREEN: u8 = 29;

pub(crate) const ERASE_LINE: u8 = 30;

pub(crate) const ERASE_FIELD: u8 = 31;

pub(crate) const ERASE_REST_OF_SCREEN: u8 = 32;

pub(crate) const ERASE_REST_OF_LINE: u8 = 33;

pub(crate) const ERASE_REST_OF_FIELD: u8 = 34;

pub(crate) const ERASE_UNPROTECTED: u8 = 35;

pub(crate) const FORMAT_DATA: u8 = 36;

pub(crate) const REPEAT: u8 = 37;

pub(crate) const SUPPRESS_PROTECTION: u8 = 38;

pub(crate) const FIELD_SEPARATOR: u8 = 39;

pub(crate) const FN: u8 = 40;

pub(crate) const ERROR: u8 = 41;

// ERROR's numbers. A function and no `From`: the type belongs to `rules`, which has definitions and no functions.
pub fn fault_number(fault: Fault) -> u8
    ensures { result ≡ fault_number fault }
{
    match fault {
        Fault::NotAgreed => 1,
        Fault::UnknownCode => 2,
        Fault::OffScreen => 3,
        Fault::TooManyParameters => 9,
        Fault::TooFewParameters => 10,
        Fault::BadValue => 11,
        Fault::BadMap => 12,
    }
}
