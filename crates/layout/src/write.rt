// The parts of a session, written into its bytes. Each contract says from where to where, the end excluded.
ghost use Rattle.std.specs.Prelude.{◌≡◌};
ghost use Rattle.words.specs.Stored.{Emitted};
ghost use Rattle.layout.specs.Layout.{encoded, frame_bytes, reader_bytes, line_bytes, message_bytes, pad_bytes, rest_bytes};

use crate::number::{PhaseBytes, StageBytes, edition_number};
use crate::{SESSION_LENGTH, VERSION};
use pad::line::EditLine;
use pad::message::Message;
use rules::{Frame, Pad, Reader, Session};

// The version and the frame, but for its maps and its edition.
fn put_frame(frame: Frame, bytes: &mut [u8; SESSION_LENGTH])
    ensures { Emitted bytes.old 0 (frame_bytes frame) bytes.new 8 }
{
    bytes[0] = VERSION;
    bytes[1] = frame.width;
    bytes[2] = frame.height;
    bytes[3] = frame.cursor.x.0;
    bytes[4] = frame.cursor.y.0;
    bytes[5] = frame.det as u8;
    bytes[6] = frame.x3 as u8;
    bytes[7] = frame.suppressed as u8;
}

fn put_reader(reader: Reader, bytes: &mut [u8; SESSION_LENGTH])
    ensures { Emitted bytes.old 8 (reader_bytes reader) bytes.new 18 }
{
    let place = PhaseBytes::from(reader.phase);
    bytes[8] = place.number;
    bytes[9] = place.option;
    bytes[10] = reader.held.count;
    bytes[11..17].copy_from_slice(&reader.held.bytes);
    bytes[17] = reader.cr as u8;
}

// The edit line: its length, then its bytes.
fn put_line(line: EditLine, bytes: &mut [u8; SESSION_LENGTH])
    ensures { Emitted bytes.old 46 (line_bytes line) bytes.new 175 }
{
    bytes[46] = line.len;
    bytes[47..175].copy_from_slice(&line.bytes);
}

// A message as far as it is read, and its copy of the values.
fn put_message(message: Message, bytes: &mut [u8; SESSION_LENGTH])
    ensures { Emitted bytes.old 175 (message_bytes message) bytes.new 206 }
{
    let next = StageBytes::from(message.stage);
    bytes[175] = next.number;
    bytes[176] = next.code;
    bytes[177] = next.parameter;
    bytes[178..206].copy_from_slice(&message.copy.held);
}

fn put_pad(pad: Pad, bytes: &mut [u8; SESSION_LENGTH])
    ensures { Emitted bytes.old 18 (pad_bytes pad) bytes.new 206 }
{
    bytes[18..46].copy_from_slice(&pad.values.held);
    put_line(pad.line, bytes);
    put_message(pad.message, bytes);
}

// The rest of the frame: the facility maps received, and the edition.
fn put_rest(frame: Frame, bytes: &mut [u8; SESSION_LENGTH])
    ensures { Emitted bytes.old 206 (rest_bytes frame) bytes.new 212 }
{
    let maps = frame.received;
    bytes[206] = maps.edit;
    bytes[207] = maps.erase;
    bytes[208] = maps.transmit;
    bytes[209] = maps.format0;
    bytes[210] = maps.format1;
    bytes[211] = edition_number(frame.edition);
}

pub(crate) fn put_session(session: Session, bytes: &mut [u8; SESSION_LENGTH])
    ensures { bytes.new ≡ encoded session }
{
    put_frame(session.frame, bytes);
    put_reader(session.reader, bytes);
    put_pad(session.pad, bytes);
    put_rest(session.frame, bytes);
}
