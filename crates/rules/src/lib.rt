// The types of the terminal: the session, what its operations answer, options, commands and keys by meaning.
// The rules of documents 01 and 02 are definitions over them, in specs/; this crate has no code.
#![tactic(auto)]

use edit::range::Shift;
use pad::line::EditLine;
use pad::message::Message;
use pad::parameter::Values;
use screen::cell::Place;
use telnet::Phase;

// The first bytes of a subnegotiation after its option byte, and how many they are: the count stops at 6. An array with its count: the
// library uses no heap, and refusal 4 (`session_ok`) tells a count above 6 from a sound one.
#[derive(Clone, Copy, Debug, PartialEq, Eq)]
pub struct Held {
    pub bytes: [u8; 6],
    pub count: u8,
}

// Facility maps, a byte for each class and two for formatting.
#[derive(Clone, Copy, Debug, PartialEq, Eq)]
pub struct Maps {
    pub edit: u8,
    pub erase: u8,
    pub transmit: u8,
    pub format0: u8,
    pub format1: u8,
}

// The edition of the protocol, which says what code a command has: RFC 731 (June), or RFC 732 (September).
#[derive(Clone, Copy, Debug, PartialEq, Eq)]
pub enum Edition {
    June,
    September,
}

// What the rules go by: the screen's size, the edition, the cursor, which options are on, protection suppressed or in effect, and the maps
// received in the latest facility command of each class.
#[derive(Clone, Copy, Debug, PartialEq, Eq)]
pub struct Frame {
    pub width: u8,
    pub height: u8,
    pub edition: Edition,
    pub cursor: Place,
    pub det: bool,
    pub x3: bool,
    pub suppressed: bool,
    pub received: Maps,
}

// How far the host's bytes are read: where the reader stands, what is held, and whether the last byte of data was a CR.
#[derive(Clone, Copy, Debug, PartialEq, Eq)]
pub struct Reader {
    pub phase: Phase,
    pub held: Held,
    pub cr: bool,
}

// What the X.3 PAD keeps: its parameters' values, the edit line, and the message of option 30 as far as it is read.
#[derive(Clone, Copy, Debug, PartialEq, Eq)]
pub struct Pad {
    pub values: Values,
    pub line: EditLine,
    pub message: Message,
}

// All that is kept between two calls, besides the lent buffers.
#[derive(Clone, Copy, Debug, PartialEq, Eq)]
pub struct Session {
    pub frame: Frame,
    pub reader: Reader,
    pub pad: Pad,
}

// The Telnet options that the terminal has.
#[derive(Clone, Copy, Debug, PartialEq, Eq)]
pub enum TelnetOption {
    Det,
    X3,
}

// Why a call is refused.
#[derive(Clone, Copy, Debug, PartialEq, Eq)]
pub enum Refusal {
    Size,
    BufferLength,
    BadCharacter,
    BadSession,
    ReplyRoom,
    Guarded,
    WrongClass,
    DetOff,
    NoMeaning,
    LineFull,
    BadMark,
    UnknownEdition,
}

// A call is taken, or refused.
pub type Verdict = Result<(), Refusal>;

// What each operation answers. (Document 01, refusal numbers: a refusal has counts of 0, so they stand beside the verdict.)
#[derive(Clone, Copy, Debug, PartialEq, Eq)]
pub struct Answer {
    pub session: Session,
    pub verdict: Verdict,
    pub taken: usize,
    pub written: usize,
}

// The classes of facilities that 1 to 4 ask about.
#[derive(Clone, Copy, Debug, PartialEq, Eq)]
pub enum Facility {
    Editing,
    Erasing,
    Transmitting,
    Formatting,
}

// Where the cursor goes.
#[derive(Clone, Copy, Debug, PartialEq, Eq)]
pub enum Destination {
    // one step, none at the edge
    Up,
    Down,
    Left,
    Right,
    Corner,
    LineStart,
    NextLine,
    NextCell,
    Home,
    ReverseTab,
    FirstField,
    NextField,
    NextOpen,
    PreviousOpen,
}

// What a transmission or an erasure covers.
#[derive(Clone, Copy, Debug, PartialEq, Eq)]
pub enum Area {
    WholeScreen,
    Unprotected,
    WholeLine,
    WholeField,
    RestOfScreen,
    RestOfLine,
    RestOfField,
}

// A subcommand by its meaning.
#[derive(Clone, Copy, Debug, PartialEq, Eq)]
pub enum Command {
    Facilities(Facility),
    // to the place that its parameters name
    MoveCursor,
    // to the line, or the character position, that its parameter names, the screen being a torus
    SkipToLine,
    SkipToChar,
    Move(Destination),
    // line insert and line delete
    LineShift(Shift),
    // char insert and char delete
    CharShift(Shift),
    ReadCursor,
    Transmit(Area),
    TransmitModified,
    Erase(Area),
    FormatData,
    Repeat,
    SuppressProtection,
    Error,
}

// What governs a subcommand: the bit of this weight in a class's map.
#[derive(Clone, Copy, Debug, PartialEq, Eq)]
pub enum Governor {
    EditBit(u8),
    EraseBit(u8),
    TransmitBit(u8),
    Format0Bit(u8),
    Format1Bit(u8),
}

// What the list of subcommands says of a code: what it means, how many parameters it takes, and what governs it, if anything does.
#[derive(Clone, Copy, Debug, PartialEq, Eq)]
pub struct Code {
    pub command: Command,
    pub parameters: u8,
    pub governor: Option<Governor>,
}

// The ERROR that a subcommand draws.
#[derive(Clone, Copy, Debug, PartialEq, Eq)]
pub enum Fault {
    NotAgreed,
    UnknownCode,
    OffScreen,
    TooManyParameters,
    TooFewParameters,
    BadValue,
    BadMap,
}

// A key by its meaning. No Option: refusal 9 is one test among those of a key (`key_tests`), so that a key without meaning is one case
// of each rule.
#[derive(Clone, Copy, Debug, PartialEq, Eq)]
pub enum Key {
    Typed(u8),
    Back,
    Tab,
    Send,
    Delete,
    Function(u8),
    Meaningless,
}
