// Keys that the edit line takes.
ghost use Rattle.std.specs.Prelude.{◌≡◌};
ghost use Rattle.words.specs.Stored.{Emitted};
ghost use Rattle.rules.specs.Refusal.{verdict};
ghost use Rattle.rules.specs.Telnet.{host_text};
ghost use Rattle.rules.specs.Pad.{takes_key, line_tests, pad_typed, sent_at, echoed_at};
ghost use Rattle.text.specs.Canvas.{shown, Draws};
ghost use Rattle.pad.specs.Line.{text_of};
ghost use Rattle.typing.specs.Echo.{bytes_of};

use pad::line::EditLine;
use rules::{Frame, Pad, Refusal, Verdict};
use text::canvas::Canvas;
use typing::echo::{Echo, echo_at, echo_length, echo_of};
use typing::key::{line_after, overfills};
use typing::out::write_out;

// Does the line take the key: option 30 on, DET off, and 0 to 127?
pub fn takes_key(frame: Frame, code: u8) -> bool
    ensures { result ≡ takes_key frame code }
{
    frame.x3 && !frame.det && code < 128
}

// Refusal 10.
#[tactic(auto, unfolding(rules::specs::Refusal::verdict, rules::specs::Pad::line_tests))]
pub fn refuse_line(pad: Pad, code: u8) -> Verdict
    ensures { result ≡ verdict (line_tests pad code) }
{
    if overfills(pad.values, pad.line, code) {
        return Err(Refusal::LineFull);
    }
    Ok(())
}

// An echo, written as host text.
fn write_echo(canvas: &mut Canvas<'_>, echo: Echo, line: EditLine)
    ensures { Draws (host_text (shown canvas.old) (bytes_of echo (text_of line))) canvas.old canvas.new }
{
    for i in 0..echo_length(echo, line) {
        canvas.take_data(echo_at(echo, line, i));
    }
}

// What is echoed at a key, written as host text.
#[tactic(auto, unfolding(typing::specs::Echo::echo_of))]
pub fn echo_key(canvas: &mut Canvas<'_>, pad: Pad, code: u8)
    ensures { Draws (host_text (shown canvas.old) (echoed_at pad code)) canvas.old canvas.new }
{
    write_echo(canvas, echo_of(pad.values, pad.line, code), pad.line);
}

// What goes out at a key, written from the reply's start: its length.
pub fn send_line(pad: Pad, code: u8, reply: &mut [u8]) -> usize
    ensures { Emitted reply.old 0 (sent_at pad code) reply.new result }
{
    write_out(pad.values, pad.line, code, reply)
}

// The PAD after a key.
#[tactic(auto, unfolding(rules::specs::Pad::pad_typed))]
pub fn type_key(pad: Pad, code: u8) -> Pad
    ensures { result ≡ pad_typed pad code }
{
    Pad {
        line: line_after(pad.values, pad.line, code),
        ..pad
    }
}
