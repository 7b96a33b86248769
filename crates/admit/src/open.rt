// Opening a session, and the answer of any call that is refused.
ghost use Rattle.std.specs.Prelude.{◌≡◌, []};
ghost use Rattle.rules.specs.Session.{fresh_pad, fresh};
ghost use Rattle.rules.specs.Operation.{outcome, opened};
ghost use Rattle.command.specs.Frame.{lent};
ghost use Rattle.admit.specs.Refused.{refused_answer};

use crate::refuse::refuse_open;
use command::facility::no_maps;
use command::held::none;
use edit::range::{erase, fill};
use pad::line::EditLine;
use pad::message::idle;
use pad::parameter::start;
use rules::{Answer, Edition, Frame, Pad, Reader, Refusal, Session};
use screen::cell::{Column, Line, Place};
use telnet::Phase;

// Parameters at their start, an empty edit line, nothing half read.
fn fresh_pad() -> Pad
    ensures { result ≡ fresh_pad }
{
    Pad {
        values: start(),
        line: EditLine::new(),
        message: idle(),
    }
}

// Cursor (0,0), both options off, protection in effect, nothing agreed, nothing half read.
fn fresh_session(width: u8, height: u8, edition: Edition) -> Session
    ensures { result ≡ fresh width height edition }
{
    Session {
        frame: Frame {
            width,
            height,
            edition,
            cursor: Place {
                x: Column(0),
                y: Line(0),
            },
            det: false,
            x3: false,
            suppressed: false,
            received: no_maps(),
        },
        reader: Reader {
            phase: Phase::Rest,
            held: none(),
            cr: false,
        },
        pad: fresh_pad(),
    }
}

// The answer of a call that is refused: its number, the session as it came, counts of 0.
pub fn refused(session: Session, why: Refusal) -> Answer
    ensures { result ≡ refused_answer session why }
{
    Answer {
        session,
        verdict: Err(why),
        taken: 0,
        written: 0,
    }
}

// A fresh session of these sizes and the edition that is named, a space in every cell, every attribute byte 0 and no mark. The numbers
// are wide, so that nothing a caller passes is cut off.
#[tactic(auto, using(crate::proofs::SettleLaws::open_sizes, crate::proofs::SettleLaws::open_done))]
pub fn open(
    width: usize,
    height: usize,
    named: usize,
    chars: &mut [u8],
    attrs: &mut [u8],
    marks: &mut [u8],
) -> Answer
    ensures { outcome result (lent chars.new attrs.new marks.new) []
        ≡ opened width height named (lent chars.old attrs.old marks.old) }
{
    let edition = match refuse_open(width, height, named, chars, attrs, marks) {
        Ok(edition) => edition,
        Err(why) => return refused(fresh_session(0, 0, Edition::September), why),
    };
    let session = fresh_session(width as u8, height as u8, edition);
    erase(true, chars, attrs, 0, chars.len());
    fill(attrs, 0, attrs.len(), 0);
    fill(marks, 0, marks.len(), 0);
    Answer {
        session,
        verdict: Ok(()),
        taken: 0,
        written: 0,
    }
}
