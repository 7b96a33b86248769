// The line that answers an order.
use crate::desk::Desk;
use crate::order::Order;
use crate::sink::Sink;
use admit::edition::name_of;
use admit::number::told_number;
use command::facility::own_maps;
use rules::{Answer, Frame, Maps, Pad, Reader};
use std::io;
use std::io::Write;
use telnet::{Phase, Verb};

// A space, and a buffer.
fn bytes(out: &mut Sink, buffer: &[u8]) -> io::Result<()> {
    out.write_all(b" ")?;
    out.hex(buffer)
}

// The answer's three numbers, and the reply buffer.
fn replied(out: &mut Sink, answer: &Answer, reply: &[u8]) -> io::Result<()> {
    write!(
        out,
        "{} {} {}",
        told_number(answer.verdict),
        answer.taken,
        answer.written
    )?;
    bytes(out, reply)
}

// The session's size, cursor and flags.
fn framed(out: &mut Sink, frame: &Frame) -> io::Result<()> {
    let cursor = frame.cursor;
    write!(
        out,
        " {} {} {} {} {} {}",
        frame.width,
        frame.height,
        cursor.x.0,
        cursor.y.0,
        u8::from(frame.det),
        u8::from(frame.suppressed)
    )
}

// The characters that wait in the edit line, and the values of all parameters.
fn local(out: &mut Sink, pad: &Pad) -> io::Result<()> {
    let line = pad.line;
    bytes(out, &line.bytes[..line.length()])?;
    bytes(out, &pad.values.held)
}

// What is agreed: the bits of the maps received that the terminal's own have too.
fn agreed(own: Maps, received: Maps) -> [u8; 5] {
    [
        received.edit & own.edit,
        received.erase & own.erase,
        received.transmit & own.transmit,
        received.format0 & own.format0,
        received.format1 & own.format1,
    ]
}

// A call's line.
fn call(out: &mut Sink, desk: &Desk) -> io::Result<()> {
    let session = desk.session();
    let frame = &session.frame;
    replied(out, &desk.answer, desk.reply.as_slice())?;
    framed(out, frame)?;
    bytes(out, desk.chars.as_slice())?;
    bytes(out, desk.attrs.as_slice())?;
    write!(out, " {}", u8::from(frame.x3))?;
    local(out, &session.pad)?;
    bytes(out, &agreed(own_maps(frame.edition), frame.received))?;
    bytes(out, desk.marks.as_slice())?;
    writeln!(out, " {}", name_of(frame.edition))
}

// Where the reader stands.
fn name(phase: Phase) -> &'static str {
    match phase {
        Phase::Rest => "data",
        Phase::Iac => "iac",
        Phase::Negotiating(Verb::Will) => "will",
        Phase::Negotiating(Verb::Wont) => "wont",
        Phase::Negotiating(Verb::Do) => "do",
        Phase::Negotiating(Verb::Dont) => "dont",
        Phase::Opening => "sb",
        Phase::OpeningIac => "sb-iac",
        Phase::Inside(_) => "sub",
        Phase::InsideIac(_) => "sub-iac",
    }
}

// The reader's line. The option is that of the subnegotiation that it is in.
fn state(out: &mut Sink, reader: &Reader) -> io::Result<()> {
    write!(out, "{}", name(reader.phase))?;
    match reader.phase {
        Phase::Inside(option) | Phase::InsideIac(option) => write!(out, " {option}")?,
        _ => out.write_all(b" -")?,
    }
    write!(out, " {}", reader.held.count)?;
    bytes(out, &reader.held.bytes)?;
    out.write_all(b"\n")
}

// What the order, once obeyed, is answered with.
pub(crate) fn line(out: &mut Sink, order: Order<'_>, desk: &Desk) -> io::Result<()> {
    match order {
        Order::Open { .. } | Order::Host { .. } | Order::Key { .. } => call(out, desk),
        Order::State => state(out, &desk.session().reader),
        _ => out.write_all(b"set\n"),
    }
}
