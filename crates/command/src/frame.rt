// The frame with one thing changed, the cursor's cell, and whether the cursor and the attribute bytes are the screen's.
ghost use Rattle.std.specs.Prelude.{◌≡◌};
ghost use Rattle.rules.specs.Session.{placed, switched, with_x3, with_received};
ghost use Rattle.rules.specs.Cursor.{cursor_guarded};
ghost use Rattle.screen.specs.Cells.{cell_of};
ghost use Rattle.command.specs.Frame.{seen, fitting};

use rules::{Frame, Maps};
use screen::attribute::is_guarded;
use screen::cell::{Place, cell_of, on_screen};

// The frame with the cursor at this place.
pub fn moved(frame: Frame, cursor: Place) -> Frame
    ensures { result ≡ placed frame cursor }
{
    Frame { cursor, ..frame }
}

// The frame with these modes.
pub fn switched(frame: Frame, det: bool, suppressed: bool) -> Frame
    ensures { result ≡ switched frame det suppressed }
{
    Frame {
        det,
        suppressed,
        ..frame
    }
}

// The frame with option 30 on or off.
pub fn with_x3(frame: Frame, x3: bool) -> Frame
    ensures { result ≡ with_x3 frame x3 }
{
    Frame { x3, ..frame }
}

// The frame with these maps received.
pub fn with_received(frame: Frame, received: Maps) -> Frame
    ensures { result ≡ with_received frame received }
{
    Frame { received, ..frame }
}

pub fn cursor_cell(frame: Frame) -> usize
    ensures { result ≡ cell_of frame.width frame.cursor }
{
    cell_of(frame.width, frame.cursor)
}

pub fn cursor_guarded(frame: Frame, attrs: &[u8]) -> bool
    ensures { result ≡ cursor_guarded (seen frame attrs.now) }
{
    is_guarded(frame.suppressed, attrs, cursor_cell(frame))
}

// Is the cursor on the screen, with an attribute byte for each cell?
#[tactic(auto, using(screen::proofs::CellLaws::byte_product))]
pub fn fits(frame: Frame, attrs: &[u8]) -> bool
    ensures { result ≡ fitting (seen frame attrs.now) }
{
    on_screen(frame.width, frame.height, frame.cursor)
        && attrs.len() == frame.height as usize * frame.width as usize
}
