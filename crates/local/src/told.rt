// The PAD after what the reader told.
ghost use Rattle.std.specs.Prelude.{◌≡◌, if◌then◌else◌};
ghost use Rattle.pad.specs.Message.{idle_message, begun, after_byte, ended};
ghost use Rattle.rules.specs.Pad.{is_x3, counts, empties, pad_after};
ghost use Rattle.local.specs.Told.{ends_other};

use command::number::X3;
use pad::line::EditLine;
use pad::message::{Message, begin, byte, end, idle};
use pad::parameter::Values;
use rules::{Frame, Pad};
use telnet::{Event, Verb};

// At the option byte: a message of option 30 begins from the values in force.
fn begun_message(values: Values, option: u8) -> Message
    ensures { result ≡ (if is_x3 option then begun values else idle_message) }
{
    if option == X3 { begin(values) } else { idle() }
}

// One byte more of it.
fn read_message(message: Message, option: u8, next: u8) -> Message
    ensures { result ≡ (if is_x3 option then after_byte message next else message) }
{
    if option == X3 {
        byte(message, next)
    } else {
        message
    }
}

// Does a subnegotiation that ended count: option 30's, while it is on?
pub(crate) fn is_counted(frame: Frame, option: u8) -> bool
    ensures { result ≡ counts frame option }
{
    option == X3 && frame.x3
}

// At its end the pairs come into force, or nothing does.
fn ended_values(frame: Frame, pad: Pad, option: u8) -> Values
    ensures { result ≡ (if counts frame option then (ended pad.values pad.message).values else pad.values) }
{
    if is_counted(frame, option) {
        end(pad.values, pad.message).values
    } else {
        pad.values
    }
}

#[tactic(auto, unfolding(rules::specs::Pad::empties))]
fn is_emptied(frame: Frame, verb: Verb, option: u8) -> bool
    ensures { result ≡ empties frame verb option }
{
    matches!(verb, Verb::Dont) && is_counted(frame, option)
}

// Is it the end of a subnegotiation of another option? Then nothing of a message is half read, and the PAD is otherwise as before.
#[tactic(auto, unfolding(crate::specs::Told::ends_other))]
pub fn ends_other(event: Event) -> bool
    ensures { result ≡ ends_other event }
{
    match event {
        Event::End(option) => option != X3,
        _ => false,
    }
}

// What the reader told, told to the PAD where it lies: most of it stays, and a copy of it is dear.
#[tactic(auto, unfolding(rules::specs::Pad::pad_after))]
pub fn tell(frame: Frame, pad: &mut Pad, event: Event)
    ensures { pad.new ≡ pad_after frame pad.old event }
{
    match event {
        Event::Nothing | Event::Data(_) => {}
        // DONT 30 while it is on empties the edit line, unsent.
        Event::Negotiation { verb, option } => {
            if is_emptied(frame, verb, option) {
                pad.line = EditLine::new();
            }
        }
        Event::Begin(option) => pad.message = begun_message(pad.values, option),
        Event::Sub { option, byte } => pad.message = read_message(pad.message, option, byte),
        Event::End(option) => {
            pad.values = ended_values(frame, *pad, option);
            pad.message = idle();
        }
        Event::EndBare | Event::Lost => pad.message = idle(),
    }
}

// The PAD afterwards.
pub fn pad_told(frame: Frame, pad: Pad, event: Event) -> Pad
    ensures { result ≡ pad_after frame pad event }
{
    let mut after = pad;
    tell(frame, &mut after, event);
    after
}
