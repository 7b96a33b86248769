// What a decision is made from.
ghost use Rattle.std.specs.Prelude.{◌≡◌, if◌then◌else◌};
ghost use Rattle.rules.specs.Session.{cursor_cell};
ghost use Rattle.rules.specs.Cursor.{cursor_guarded};
ghost use Rattle.command.specs.Frame.{seen, fitting};

use command::frame::{cursor_cell, cursor_guarded, fits};
use rules::Frame;
use std::marker::Model;

// A frame with the screen's attribute bytes: the cursor is on the screen, and each cell has a byte.
#[derive(Drop)]
pub(crate) struct View<'a> {
    pub(crate) frame: Frame,
    pub(crate) attrs: &'a [u8],
}

impl<'a> Model for View<'a> {
    ghost use Rattle.rules.specs.Session.{View};
    ghost use Rattle.command.specs.Frame.{seen};
    ghost use Rattle.command.specs.Inner.Frame.{Fits};

    ghost Value = { View };

    ghost view = { λ a. seen a.frame a.attrs.now };

    ghost invariant = { λ a. Fits (seen a.frame a.attrs.now) };
}

impl<'a> View<'a> {
    // None where the cursor is off the screen, or the attribute bytes are not the screen's.
    pub(crate) fn new(frame: Frame, attrs: &'a [u8]) -> Option<View<'a>>
        ensures { result ≡ (if fitting (seen frame attrs.now) then Some (seen frame attrs.now) else None) }
    {
        if fits(frame, attrs) {
            Some(View { frame, attrs })
        } else {
            None
        }
    }

    pub(crate) fn cursor_cell(&self) -> usize
        ensures { result ≡ cursor_cell self.now }
    {
        cursor_cell(self.frame)
    }

    pub(crate) fn cursor_guarded(&self) -> bool
        ensures { result ≡ cursor_guarded self.now }
    {
        cursor_guarded(self.frame, self.attrs)
    }
}
