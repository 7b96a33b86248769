// What a host byte or a key is decided to do. Characters are named by their cells.
ghost use Rattle.std.specs.Prelude.{◌≡◌, false};
ghost use Rattle.decide.specs.Inner.Decision.{decision};

use edit::range::Shift;
use rules::Frame;
use screen::cell::Place;
use telnet::Verb;

// What becomes of the characters. (Request (v): `Put`, a typed character, and `Shift` mark the cells that they write.)
// No Option: nothing is one of the cases, and each use would match twice (`None`, `Some(Edit::Put { .. })`, ..). So too `Say::Silent`.
#[derive(Clone, Copy, Debug, PartialEq, Eq)]
pub enum Edit {
    Nothing,
    Put {
        cell: usize,
        byte: u8,
    },
    // spaces in the cells of the range that are not guarded
    Erase {
        suppressed: bool,
        from: usize,
        end: usize,
    },
    // by so many cells
    Shift {
        shift: Shift,
        from: usize,
        end: usize,
        by: usize,
    },
    // a host character so many times, from the cursor on
    Repeat {
        count: u8,
        byte: u8,
    },
}

// What is sent.
#[derive(Clone, Copy, Debug, PartialEq, Eq)]
pub enum Say {
    Silent,
    Negotiation {
        verb: Verb,
        option: u8,
    },
    // IAC SB 20 and these bytes IAC SE
    Two {
        code: u8,
        a: u8,
    },
    Three {
        code: u8,
        a: u8,
        b: u8,
    },
    // a preface alone, with the text of a range, with every unprotected field
    Preface(Place),
    Text {
        place: Place,
        from: usize,
        end: usize,
    },
    Fields(Place),
    // request (v): every unprotected field with a marked cell, each behind a preface of its own
    Modified {
        width: u8,
    },
}

// The cells of a range take this attribute byte.
#[derive(Clone, Copy, Debug, PartialEq, Eq)]
pub struct Fill {
    pub from: usize,
    pub end: usize,
    pub attr: u8,
}

#[derive(Clone, Copy, Debug, PartialEq, Eq)]
pub struct Decision {
    pub frame: Frame,
    pub edit: Edit,
    pub say: Say,
    // what becomes of the attribute bytes
    pub format: Option<Fill>,
    // all marks are cleared
    pub clear: bool,
}

impl Decision {
    // Nothing is done.
    pub fn quiet(frame: Frame) -> Self
        ensures { result ≡ record { frame = frame; edit = Edit.Nothing; say = Say.Silent; format = None; clear = false } }
    {
        Decision {
            frame,
            edit: Edit::Nothing,
            say: Say::Silent,
            format: None,
            clear: false,
        }
    }

    pub(crate) fn saying(frame: Frame, say: Say) -> Self
        ensures { result ≡ decision frame Edit.Nothing say }
    {
        Decision {
            say,
            ..Decision::quiet(frame)
        }
    }

    pub(crate) fn editing(frame: Frame, edit: Edit) -> Self
        ensures { result ≡ decision frame edit Say.Silent }
    {
        Decision {
            edit,
            ..Decision::quiet(frame)
        }
    }
}
