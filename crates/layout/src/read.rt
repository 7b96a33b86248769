// The parts of a session, read from its bytes. The places stand as numbers here and in write.rt, as in the table at the head of
// specs/Layout.antt and in the definitions there: names for them would be one more list to compare with it.
ghost use Rattle.std.specs.Prelude.{◌≡◌, ◌+◌, ◌≤◌, length};
ghost use Rattle.layout.specs.Layout.{session_length, bytes_from, maps_in, frame_in, reader_in, pad_in, decoded};

use crate::SESSION_LENGTH;
use crate::number::{PhaseBytes, StageBytes, edition_numbered};
use pad::line::EditLine;
use pad::message::Message;
use pad::parameter::Values;
use rules::{Frame, Held, Maps, Pad, Reader, Session};
use screen::cell::{Column, Line, Place};

// The N bytes from a place on.
#[tactic(auto, using(crate::proofs::CopyLaws::part_read))]
fn bytes_from<const N: usize>(bytes: &[u8; SESSION_LENGTH], from: usize) -> [u8; N]
    requires { from + N ≤ session_length }
    ensures { result ≡ bytes_from bytes.now from N }
{
    let mut part = [0; N];
    part.copy_from_slice(&bytes[from..from + N]);
    part
}

// The facility maps received.
#[tactic(auto, unfolding(crate::specs::Layout::maps_in))]
fn maps_in(bytes: &[u8; SESSION_LENGTH]) -> Maps
    ensures { result ≡ maps_in bytes.now }
{
    Maps {
        edit: bytes[206],
        erase: bytes[207],
        transmit: bytes[208],
        format0: bytes[209],
        format1: bytes[210],
    }
}

#[tactic(auto, unfolding(crate::specs::Layout::frame_in))]
fn frame_in(bytes: &[u8; SESSION_LENGTH]) -> Frame
    ensures { result ≡ frame_in bytes.now }
{
    Frame {
        width: bytes[1],
        height: bytes[2],
        edition: edition_numbered(bytes[211]),
        cursor: Place {
            x: Column(bytes[3]),
            y: Line(bytes[4]),
        },
        det: bytes[5] == 1,
        x3: bytes[6] == 1,
        suppressed: bytes[7] == 1,
        received: maps_in(bytes),
    }
}

#[tactic(auto, unfolding(crate::specs::Layout::reader_in))]
fn reader_in(bytes: &[u8; SESSION_LENGTH]) -> Reader
    ensures { result ≡ reader_in bytes.now }
{
    let place = PhaseBytes {
        number: bytes[8],
        option: bytes[9],
    };
    Reader {
        phase: place.into(),
        held: Held {
            bytes: bytes_from(bytes, 11),
            count: bytes[10],
        },
        cr: bytes[17] == 1,
    }
}

#[tactic(auto, unfolding(crate::specs::Layout::pad_in))]
fn pad_in(bytes: &[u8; SESSION_LENGTH]) -> Pad
    ensures { result ≡ pad_in bytes.now }
{
    let next = StageBytes {
        number: bytes[175],
        code: bytes[176],
        parameter: bytes[177],
    };
    Pad {
        values: Values {
            held: bytes_from(bytes, 18),
        },
        line: EditLine {
            bytes: bytes_from(bytes, 47),
            len: bytes[46],
        },
        message: Message {
            stage: next.into(),
            copy: Values {
                held: bytes_from(bytes, 178),
            },
        },
    }
}

#[tactic(auto, unfolding(crate::specs::Layout::decoded))]
pub(crate) fn session_in(bytes: &[u8; SESSION_LENGTH]) -> Session
    ensures { result ≡ decoded bytes.now }
{
    Session {
        frame: frame_in(bytes),
        reader: reader_in(bytes),
        pad: pad_in(bytes),
    }
}

// The session of bytes that may be too few for one: zeros stand for what is missing.
#[tactic(auto, using(crate::proofs::CopyLaws::short_same))]
pub(crate) fn session_in_short(bytes: &[u8]) -> Session
    requires { length bytes.now ≤ session_length }
    ensures { result ≡ decoded bytes.now }
{
    let mut whole = [0; SESSION_LENGTH];
    whole[..bytes.len()].copy_from_slice(bytes);
    session_in(&whole)
}
