// Host data in the session: an LF right after a CR may be passed over.
ghost use Rattle.std.specs.Prelude.{◌≡◌, not, ◌&&◌, eqb};
ghost use Rattle.rules.specs.Session.{line_takes_keys};
ghost use Rattle.rules.specs.Telnet.{host_text};
ghost use Rattle.text.specs.Text.{obeyed_bytes, ends_in_cr};
ghost use Rattle.text.specs.Canvas.{shown, Draws};
ghost use Rattle.det.specs.Inner.Data.{data_effect};

use rules::Frame;
use text::canvas::Canvas;
use text::joined::ends_in_cr;

// Is CR LF printed as CR? `lf`: parameter 13 has it printed as such.
fn is_joining(frame: Frame, lf: bool) -> bool
    ensures { result ≡ (line_takes_keys frame && not lf) }
{
    frame.x3 && !frame.det && !lf
}

fn is_passed(frame: Frame, lf: bool, cr: bool, byte: u8) -> bool
    ensures { result ≡ ((line_takes_keys frame && not lf) && (cr && eqb byte 10)) }
{
    is_joining(frame, lf) && cr && byte == 10
}

// One byte of data.
pub(crate) fn obey_data(canvas: &mut Canvas<'_>, lf: bool, cr: bool, byte: u8)
    ensures { Draws (data_effect (shown canvas.old) lf cr byte) canvas.old canvas.new }
{
    if !is_passed(canvas.frame, lf, cr, byte) {
        canvas.take_data(byte);
    }
}

// A stretch of data: does it end in a CR?
pub(crate) fn take_bytes(canvas: &mut Canvas<'_>, lf: bool, cr: bool, bytes: &[u8]) -> bool
    ensures draws { Draws (host_text (shown canvas.old) (obeyed_bytes (line_takes_keys canvas.old.frame && not lf) cr bytes.now))
        canvas.old canvas.new }
    ensures ends { result ≡ ends_in_cr cr bytes.now }
{
    canvas.host_text(is_joining(canvas.frame, lf), cr, bytes);
    ends_in_cr(cr, bytes)
}
