// A line of the script, read as an order.
use crate::source::Source;
use crate::stop::Stop;

// The most that a screen's size, a buffer's length, the host bytes and a reply buffer's length may be.
const SIZE: usize = 65_535;

pub(crate) const BUFFER: usize = 8_448;

pub(crate) const INPUT: usize = 65_536;

pub(crate) const ROOM: usize = 80_000;

#[derive(Clone, Copy)]
pub(crate) enum Order<'a> {
    // a screen of this size, and the lengths of its buffers
    Open {
        width: usize,
        height: usize,
        chars: usize,
        attrs: usize,
        marks: usize,
        edition: usize,
    },
    // these bytes replace the characters, the attributes or the marks
    Chars(&'a [u8]),
    Attrs(&'a [u8]),
    Marks(&'a [u8]),
    // what is set in the session without a call
    Cursor {
        x: u8,
        y: u8,
    },
    Held(u8),
    Det(bool),
    Suppress(bool),
    Pad(bool),
    // host bytes or a key, with a reply buffer of so many bytes
    Host {
        input: &'a [u8],
        room: usize,
    },
    Key {
        code: u8,
        room: usize,
    },
    State,
}

fn open(source: &mut Source) -> Result<Order<'static>, Stop> {
    Ok(Order::Open {
        width: source.number(SIZE)?,
        height: source.number(SIZE)?,
        chars: source.number(BUFFER)?,
        attrs: source.number(BUFFER)?,
        marks: source.number(BUFFER)?,
        edition: source.number(SIZE)?,
    })
}

fn cursor(source: &mut Source) -> Result<Order<'static>, Stop> {
    Ok(Order::Cursor {
        x: source.byte()?,
        y: source.byte()?,
    })
}

fn host<'a>(source: &mut Source, bytes: &'a mut [u8; INPUT]) -> Result<Order<'a>, Stop> {
    Ok(Order::Host {
        input: source.bytes(bytes)?,
        room: source.number(ROOM)?,
    })
}

fn key(source: &mut Source) -> Result<Order<'static>, Stop> {
    Ok(Order::Key {
        code: source.byte()?,
        room: source.number(ROOM)?,
    })
}

// The rest of a line that begins with this word. An arm that lends the bytes returns by itself: what is lent on some arms alone
// is not proved where arms join.
fn rest<'a>(
    source: &mut Source,
    word: &[u8],
    bytes: &'a mut [u8; INPUT],
) -> Result<Order<'a>, Stop> {
    match word {
        b"open" => open(source),
        b"chars" => return Ok(Order::Chars(source.bytes(&mut bytes[..BUFFER])?)),
        b"attrs" => return Ok(Order::Attrs(source.bytes(&mut bytes[..BUFFER])?)),
        b"marks" => return Ok(Order::Marks(source.bytes(&mut bytes[..BUFFER])?)),
        b"cursor" => cursor(source),
        b"held" => Ok(Order::Held(source.byte()?)),
        b"det" => Ok(Order::Det(source.flag()?)),
        b"suppress" => Ok(Order::Suppress(source.flag()?)),
        b"pad" => Ok(Order::Pad(source.flag()?)),
        b"host" => return host(source, bytes),
        b"key" => key(source),
        b"state" => Ok(Order::State),
        _ => Err(Stop::BadLine),
    }
}

// Reads a line: none where none is left. The bytes of an order that has some go to the start of `bytes`.
pub(crate) fn read<'a>(
    source: &mut Source,
    bytes: &'a mut [u8; INPUT],
) -> Result<Option<Order<'a>>, Stop> {
    let mut letters = [0; 8];
    let Some(word) = source.word(&mut letters)? else {
        return Ok(None);
    };
    let order = rest(source, word, bytes)?;
    source.line_end()?;
    Ok(Some(order))
}
