// Characters from the host and from the operator, decided: what happens to each, and where the cursor goes.
ghost use Rattle.std.specs.Prelude.{◌≡◌, List, ℕ};
ghost use Rattle.screen.specs.Classes.{takes};
ghost use Rattle.rules.specs.Session.{placed, view};
ghost use Rattle.rules.specs.Effect.{quiet};
ghost use Rattle.rules.specs.Key.{class_allows};
ghost use Rattle.command.specs.Frame.{seen};
ghost use Rattle.decide.specs.Writing.{fate_of, place_after, control_of, Writes};
ghost use Rattle.decide.specs.Inner.Writing.{Ready};

use crate::cursor::{down, left, next_cell, next_open_place, start_of_line};
use command::frame::{cursor_cell, cursor_guarded};
use pad::ascii::{BS, CR, LF};
use rules::Frame;
use screen::attribute::attribute_at;
use screen::cell::Place;
use screen::class::takes_typed;

// Who writes a character.
#[derive(Clone, Copy, Debug, PartialEq, Eq)]
pub enum Writer {
    Host,
    Operator,
}

// What happens to a character.
#[derive(Clone, Copy, Debug, PartialEq, Eq)]
pub enum Fate {
    Written,
    Dropped,
    RefusedByGuard,
    RefusedByClass,
}

// A character's fate, and the cursor after it.
#[derive(Clone, Copy, Debug, PartialEq, Eq)]
pub struct Writing {
    pub fate: Fate,
    pub cursor: Place,
}

// Class is tested for the operator alone, and not while suppressed.
fn class_allows(frame: Frame, attrs: &[u8], byte: u8) -> bool
    ensures { result ≡ class_allows (seen frame attrs.now) (λ attr. takes attr byte) }
{
    frame.suppressed || takes_typed(attribute_at(attrs, cursor_cell(frame)), byte)
}

// What happens to a character at the cursor. It is asked of any frame (`write_host` and `refuse_pressed` ask nothing of their callers), and
// so takes no `View`.
#[tactic(auto, unfolding(crate::specs::Writing::fate_of))]
pub(crate) fn judge_character(frame: Frame, attrs: &[u8], writer: Writer, byte: u8) -> Fate
    ensures { result ≡ fate_of writer (seen frame attrs.now) byte }
{
    let guarded = cursor_guarded(frame, attrs);
    match writer {
        Writer::Host if guarded => Fate::Dropped,
        Writer::Host => Fate::Written,
        Writer::Operator if guarded => Fate::RefusedByGuard,
        Writer::Operator if class_allows(frame, attrs, byte) => Fate::Written,
        Writer::Operator => Fate::RefusedByClass,
    }
}

// Where the cursor goes after a character: to the next cell, or to the next that is not guarded.
#[tactic(auto, unfolding(rules::specs::Cursor::destination))]
fn place_after(frame: Frame, attrs: &[u8], writer: Writer) -> Place
    requires { Ready writer (seen frame attrs.now) }
    ensures { result ≡ place_after writer (seen frame attrs.now) }
{
    match writer {
        Writer::Host => next_cell(frame),
        Writer::Operator => next_open_place(frame, attrs),
    }
}

// Writes a character at the cursor, or does not, and tells which. All that write go by this: host text, REPEAT and typing.
#[tactic(auto, unfolding(crate::specs::Writing::after_fate))]
pub(crate) fn write(frame: Frame, attrs: &[u8], writer: Writer, byte: u8) -> Writing
    requires { Ready writer (seen frame attrs.now) }
    ensures { Writes (seen frame attrs.now) writer byte result }
{
    let fate = judge_character(frame, attrs, writer, byte);
    let cursor = match fate {
        Fate::Written => place_after(frame, attrs, writer),
        _ => frame.cursor,
    };
    Writing { fate, cursor }
}

// A character from the host.
pub fn write_host(frame: Frame, attrs: &[u8], byte: u8) -> Writing
    ensures { Writes (seen frame attrs.now) Writer.Host byte result }
{
    write(frame, attrs, Writer::Host, byte)
}

// Host data that is no character: CR, LF and BS move the cursor, any other byte does nothing. The cursor after it.
#[tactic(auto, unfolding(crate::specs::Writing::control_of, rules::specs::Telnet::host_data, rules::specs::Cursor::destination))]
pub fn control(frame: Frame, byte: u8) -> Place
    ensures { (attrs : List ℕ) → control_of (view frame attrs) byte ≡ quiet (view (placed frame result) attrs) }
{
    match byte {
        CR => start_of_line(frame),
        LF => down(frame),
        BS => left(frame),
        _ => frame.cursor,
    }
}
