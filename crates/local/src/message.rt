// A message of option 30, one byte after the other: the reader reads it, the PAD is told, and SEND is answered.
ghost use Rattle.std.specs.Prelude.{◌≡◌, ◌&&◌};
ghost use Rattle.telnet.specs.Reader.{read_of};
ghost use Rattle.pad.specs.Message.{ended};
ghost use Rattle.rules.specs.Pad.{counts};
ghost use Rattle.rules.specs.Operation.{reader_after};
ghost use Rattle.reply.specs.Written.{Puts};
ghost use Rattle.local.specs.Message.{answer_pieces, Reads};

use crate::told::{is_counted, pad_told};
use command::held::{cr_after, held_after};
use pad::message::end;
use reply::Reply;
use rules::{Frame, Pad, Reader};
use telnet::{Event, Step, read};

// Is a message that ends answered: a SEND, while option 30 is on?
fn is_answered(frame: Frame, pad: Pad, option: u8) -> bool
    ensures { result ≡ (counts frame option && (ended pad.values pad.message).asked) }
{
    is_counted(frame, option) && end(pad.values, pad.message).asked
}

// RESPONSE-IS where it is asked for.
#[tactic(auto, using(reply::proofs::WriteLaws::puts_none), unfolding(crate::specs::Message::answer_pieces))]
fn answer(frame: Frame, pad: Pad, event: Event, reply: &mut Reply<'_>)
    ensures { Puts reply.old (answer_pieces frame pad event) reply.new }
{
    let Event::End(option) = event else {
        return;
    };
    if is_answered(frame, pad, option) {
        reply.respond(pad.values);
    }
}

// What a byte tells, and the reader after it.
#[derive(Clone, Copy, Debug, PartialEq, Eq)]
pub struct ByteRead {
    pub event: Event,
    pub reader: Reader,
}

pub fn read_byte(reader: Reader, byte: u8) -> ByteRead
    ensures event { result.event ≡ (read_of reader.phase byte).event }
    ensures reader { result.reader ≡ reader_after reader byte }
{
    let Step { phase, event } = read(reader.phase, byte);
    ByteRead {
        event,
        reader: Reader {
            phase,
            held: held_after(reader.held, event),
            cr: cr_after(reader.cr, event),
        },
    }
}

// Where a byte leaves the reader and the PAD.
#[derive(Clone, Copy, Debug, PartialEq, Eq)]
pub struct PadTurn {
    pub reader: Reader,
    pub pad: Pad,
}

// One byte of such a message.
pub fn take_byte(frame: Frame, reader: Reader, pad: Pad, next: u8, reply: &mut Reply<'_>) -> PadTurn
    ensures { Reads frame reader pad next reply.old result reply.new }
{
    let ByteRead {
        event,
        reader: after,
    } = read_byte(reader, next);
    answer(frame, pad, event, reply);
    PadTurn {
        reader: after,
        pad: pad_told(frame, pad, event),
    }
}
