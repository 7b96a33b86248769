// Host bytes, a turn at a time: a stretch of data or of a subnegotiation's bytes, then a whole subnegotiation or one byte.
ghost use Rattle.std.specs.Prelude.{◌≡◌, List, ℕ, ◌<◌, length};
ghost use Rattle.telnet.specs.declared.Phase.TheVariants.{Rest, Inside};
ghost use Rattle.telnet.specs.Stream.{stretch_of};
ghost use Rattle.rules.specs.Session.{Screen, screen};
ghost use Rattle.command.specs.Frame.{lent, seen};
ghost use Rattle.command.specs.Inner.Frame.{Fits};
ghost use Rattle.decide.specs.Decision.{Decides};
ghost use Rattle.det.specs.Inner.Data.{told_effect};
ghost use Rattle.det.specs.Inner.Apply.{Answerable, Applies};
ghost use Rattle.det.specs.Inner.Take.{AcceptsTurn, told_of, TellsNext, effect_at, QuietTurns, Turns};

use crate::apply::apply;
use crate::data::{obey_data, take_bytes};
use crate::start::Start;
use command::held::{held_of, hold_all, none};
use command::number::X3;
use decide::decision::Decision;
use decide::negotiate::negotiate;
use decide::obey::decide_end;
use local::message::read_byte;
use reply::Reply;
use rules::{Frame, Held, Reader};
use telnet::ahead::look_ahead;
use telnet::code::IAC;
use telnet::stretch::{Stretch, data_at, payload_at};
use telnet::{Event, Phase};
use text::canvas::Canvas;

// Where some bytes leave the frame and the reader, what was told last, and where they end in the input. The PAD is left to the caller, who
// tells it: it is large, and a turn is short.
#[derive(Clone, Copy, Debug, PartialEq, Eq)]
pub struct Turn {
    pub frame: Frame,
    pub reader: Reader,
    pub event: Event,
    pub end: usize,
}

// What is told next: `held` is what was held before it, `reader` stands after it, at `next`.
#[derive(Clone, Copy, Debug, PartialEq, Eq)]
pub struct Told {
    pub event: Event,
    pub held: Held,
    pub reader: Reader,
    pub next: usize,
}

// What is done on an event other than data that ends no message of option 30.
#[tactic(auto, unfolding(crate::specs::Inner::Data::told_effect))]
fn decide_event(frame: Frame, attrs: &[u8], held: Held, event: Event) -> Decision
    requires { Fits (seen frame attrs.now) }
    ensures { Decides (seen frame attrs.now) result (λ v. told_effect v held event) }
{
    match event {
        Event::Negotiation { verb, option } => negotiate(frame, verb, option),
        Event::End(option) => decide_end(frame, attrs, held, option),
        _ => Decision::quiet(frame),
    }
}

// Does what an event asks for that ends no message of option 30.
#[tactic(auto, unfolding(crate::specs::Inner::Data::det_effect))]
fn happen(
    here: &Start<'_>,
    told: &Told,
    chars: &mut [u8],
    attrs: &mut [u8],
    marks: &mut [u8],
    reply: &mut Reply<'_>,
) -> Frame
    requires { Answerable (effect_at here.now told.now attrs.old) here.now.frame.now (lent chars.old attrs.old marks.old)
        reply.old.buffer.now reply.old.at }
    ensures { Applies (effect_at here.now told.now attrs.old)
        (lent chars.old attrs.old marks.old) reply.old
        result (lent chars.new attrs.new marks.new) reply.new }
{
    match told.event {
        Event::Data(byte) => {
            let mut canvas = Canvas {
                frame: *here.frame,
                chars,
                attrs,
            };
            obey_data(&mut canvas, here.lf, here.reader.cr, byte);
            canvas.frame
        }
        _ => {
            let decision = decide_event(*here.frame, attrs, told.held, told.event);
            apply(decision, chars, attrs, marks, reply)
        }
    }
}

// The byte before `next`, asked of the reader.
#[tactic(auto, unfolding(crate::specs::Inner::Take::told_of))]
fn told_byte(reader: Reader, byte: u8, next: usize) -> Told
    ensures { result ≡ told_of reader byte next }
{
    let read = read_byte(reader, byte);
    Told {
        event: read.event,
        held: reader.held,
        reader: read.reader,
        next,
    }
}

// A whole subnegotiation tells its end, but one of option 30 goes a byte at a time; any other byte is asked of the reader.
#[tactic(auto, using(crate::proofs::QuietLaws::told_next))]
fn told_at(here: &Start<'_>) -> Told
    ensures { TellsNext here.now result }
{
    let input = here.input;
    let reader = here.reader;
    match look_ahead(reader.phase, input, here.from) {
        Some(sub) if sub.option != X3 => Told {
            event: Event::End(sub.option),
            held: held_of(&input[sub.start..sub.end]),
            reader: Reader {
                phase: Phase::Rest,
                held: none(),
                cr: reader.cr,
            },
            next: sub.next,
        },
        _ => told_byte(*reader, input[here.from], here.from + 1),
    }
}

// A whole subnegotiation, or one byte.
// The lent screen stays three slices: data and keys lend `attrs` as a `&`, a decision as a `&mut`, and a struct holds one of the two.
fn take_told(
    here: &Start<'_>,
    chars: &mut [u8],
    attrs: &mut [u8],
    marks: &mut [u8],
    reply: &mut Reply<'_>,
) -> Turn
    requires { AcceptsTurn here.now (lent chars.old attrs.old marks.old) reply.old }
    ensures onward { here.now.from < result.end }
    ensures turns { Turns here.now (lent chars.old attrs.old marks.old) reply.old
        result (lent chars.new attrs.new marks.new) reply.new }
{
    let told = told_at(here);
    let frame = happen(here, &told, chars, attrs, marks, reply);
    Turn {
        frame,
        reader: told.reader,
        event: told.event,
        end: told.next,
    }
}

// The data ahead. Behind a command another one often stands, and then there is none to look for.
#[tactic(auto, using(crate::proofs::QuietLaws::stretch_none))]
fn data_ahead(input: &[u8], from: usize) -> Stretch
    requires { from < length input.now }
    ensures { result ≡ stretch_of Rest input.now from }
{
    if input[from] == IAC {
        return Stretch {
            end: from,
            next: from + 1,
            phase: Phase::Iac,
        };
    }
    data_at(input, from)
}

// At rest: the data up to the next IAC, and that IAC.
#[tactic(auto, using(crate::proofs::QuietLaws::lies))]
fn take_text(here: &Start<'_>, chars: &mut [u8], attrs: &[u8]) -> Turn
    requires { here.now.reader.now.phase ≡ Rest }
    ensures { (marks : List ℕ) → QuietTurns here.now (screen chars.old attrs.now marks)
        result (screen chars.new attrs.now marks) }
{
    let stretch = data_ahead(here.input, here.from);
    let bytes = &here.input[here.from..stretch.end];
    let mut canvas = Canvas {
        frame: *here.frame,
        chars,
        attrs,
    };
    let cr = take_bytes(&mut canvas, here.lf, here.reader.cr, bytes);
    Turn {
        frame: canvas.frame,
        reader: Reader {
            phase: stretch.phase,
            cr,
            ..*here.reader
        },
        event: Event::Nothing,
        end: stretch.next,
    }
}

// In the subnegotiation of this option: its bytes up to the next IAC, and that IAC.
#[tactic(auto, using(crate::proofs::QuietLaws::lies))]
fn take_payload(option: u8, here: &Start<'_>) -> Turn
    requires { here.now.reader.now.phase ≡ Inside option }
    ensures { (b : Screen) → QuietTurns here.now b result b }
{
    let stretch = payload_at(option, here.input, here.from);
    let bytes = &here.input[here.from..stretch.end];
    Turn {
        frame: *here.frame,
        reader: Reader {
            phase: stretch.phase,
            held: hold_all(here.reader.held, bytes),
            ..*here.reader
        },
        event: Event::Nothing,
        end: stretch.next,
    }
}

// The stretch that the reader stands in, if it stands in one. It draws no reply.
#[tactic(auto, using(crate::proofs::QuietLaws::run_none))]
fn take_stretch(here: &Start<'_>, chars: &mut [u8], attrs: &[u8]) -> Turn
    ensures { (marks : List ℕ) → QuietTurns here.now (screen chars.old attrs.now marks)
        result (screen chars.new attrs.now marks) }
{
    match here.reader.phase {
        Phase::Rest => take_text(here, chars, attrs),
        Phase::Inside(option) => take_payload(option, here),
        _ => Turn {
            frame: *here.frame,
            reader: *here.reader,
            event: Event::Nothing,
            end: here.from,
        },
    }
}

// A stretch, and what is told after it.
pub(crate) fn take_turn(
    here: &Start<'_>,
    chars: &mut [u8],
    attrs: &mut [u8],
    marks: &mut [u8],
    reply: &mut Reply<'_>,
) -> Turn
    requires { AcceptsTurn here.now (lent chars.old attrs.old marks.old) reply.old }
    ensures onward { here.now.from < result.end }
    ensures turns { Turns here.now (lent chars.old attrs.old marks.old) reply.old
        result (lent chars.new attrs.new marks.new) reply.new }
{
    let stretch = take_stretch(here, chars, attrs);
    if here.input.len() <= stretch.end {
        return stretch;
    }
    let next = Start {
        input: here.input,
        from: stretch.end,
        frame: &stretch.frame,
        reader: &stretch.reader,
        lf: here.lf,
    };
    take_told(&next, chars, attrs, marks, reply)
}
