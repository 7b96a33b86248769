// What is written as host text at a typed key (RFC 1053, parameters 2, 13, 19 and 20): one byte after the other, by its place.
// An iterator would be a struct whose `next` is `echo_at` and a step: no plainer.
ghost use Rattle.std.specs.Prelude.{◌≡◌, [], leb, length, get_or, replicate, if◌then◌else◌};
ghost use Rattle.pad.specs.Parameters.{value_of};
ghost use Rattle.pad.specs.Line.{capacity, text_of};
ghost use Rattle.typing.specs.Echo.{echo_set, echoed, key_echo, character_signal, line_signal, editing_set, echoing, rubouts, bytes_of};

use crate::key::{Kind, kind_of};
use pad::ascii::{BS, CR, DEL, LF, SPACE};
use pad::line::EditLine;
use pad::parameter::{
    ECHO_MASK, EDITING_SIGNALS, LF_INSERTION, LF_ON_ECHO, LOCAL_ECHO, Values, has, value,
};

// What is echoed. No Option: silence is one of the cases, and each use would match twice.
#[derive(Clone, Copy, Debug, PartialEq, Eq)]
pub enum Echo {
    Silence,
    // this byte, so often
    Repeated { byte: u8, times: u8 },
    // BS SPACE BS, so often
    Rubouts(u8),
    // CR LF
    NewLine,
    // XXX CR LF: the line is struck out
    Struck,
    // the characters that wait
    Waiting,
}

// By control character: its set under parameter 20.
static CONTROL_SETS: [u8; 32] = [
    128, // 0 NUL
    32, // 1 SOH
    32, // 2 STX
    32, // 3 ETX
    32, // 4 EOT
    16, // 5 ENQ
    32, // 6 ACK
    8, // 7 BEL
    8, // 8 BS
    4, // 9 HT
    2, // 10 LF
    4, // 11 VT
    4, // 12 FF
    1, // 13 CR
    128, // 14 SO
    128, // 15 SI
    128, // 16 DLE
    128, // 17 DC1
    128, // 18 DC2
    128, // 19 DC3
    128, // 20 DC4
    32, // 21 NAK
    128, // 22 SYN
    32, // 23 ETB
    128, // 24 CAN
    128, // 25 EM
    128, // 26 SUB
    16, // 27 ESC
    128, // 28 FS
    128, // 29 GS
    128, // 30 RS
    128, // 31 US
];

// Sets of others: what is echoed at an edit key; DEL, as the control characters that no other set has.
const EDITING_SET: u8 = 64;

const WITH_DEL: u8 = 128;

// Styles of parameter 19 besides a character of one's own: nothing, for a printing terminal, for a display.
// Bytes and no enum: an enum would be matched from the byte, and then matched again.
const NOTHING: u8 = 0;

const PRINTING: u8 = 1;

const DISPLAY: u8 = 2;

// What strikes out a character on paper.
const STROKE: u8 = b'\\';

// The set that a key is in under parameter 20; 0 for none.
#[tactic(auto, unfolding(crate::specs::Echo::echo_set))]
fn echo_set(key: u8) -> u8
    ensures { result ≡ echo_set key }
{
    match key {
        ..SPACE => CONTROL_SETS[key as usize],
        DEL => WITH_DEL,
        _ => 0,
    }
}

// Echo is on, and the mask leaves the set of this bit.
#[tactic(auto, unfolding(crate::specs::Echo::echoed))]
fn is_echoed(values: Values, set: u8) -> bool
    ensures { result ≡ echoed values set }
{
    value(values, LOCAL_ECHO) == 1 && !has(values, ECHO_MASK, set)
}

// A key that is no edit key. A CR may be echoed as CR LF.
#[tactic(auto, unfolding(crate::specs::Echo::key_echo))]
fn key_echo(values: Values, key: u8) -> Echo
    ensures { result ≡ key_echo values key }
{
    if !is_echoed(values, echo_set(key)) {
        return Echo::Silence;
    }
    if key != CR {
        return Echo::Repeated {
            byte: key,
            times: 1,
        };
    }
    if has(values, LF_INSERTION, LF_ON_ECHO) {
        return Echo::NewLine;
    }
    Echo::Repeated { byte: CR, times: 1 }
}

// What parameter 19 names; 0, nothing, where the editing characters are not echoed.
fn signal(values: Values) -> u8
    ensures { result ≡ (if echoed values editing_set then value_of values 19 else 0) }
{
    if is_echoed(values, EDITING_SET) {
        return value(values, EDITING_SIGNALS);
    }
    0
}

// The signal for each of so many characters erased.
#[tactic(auto, using(crate::proofs::EchoLaws::character_by))]
fn character_signal(values: Values, count: u8) -> Echo
    ensures { result ≡ character_signal values count }
{
    match signal(values) {
        NOTHING => Echo::Silence,
        PRINTING => Echo::Repeated {
            byte: STROKE,
            times: count,
        },
        DISPLAY => Echo::Rubouts(count),
        byte => Echo::Repeated { byte, times: count },
    }
}

// The signal for a line of so many characters.
#[tactic(auto, using(crate::proofs::EchoLaws::line_by_lem))]
fn line_signal(values: Values, count: u8) -> Echo
    ensures { result ≡ line_signal values count }
{
    match signal(values) {
        NOTHING => Echo::Silence,
        DISPLAY => Echo::Rubouts(count),
        _ => Echo::Struck,
    }
}

// A key that waits on a line of so many characters; one that overfills it is not echoed.
fn plain_echo(values: Values, length: usize, key: u8) -> Echo
    ensures { result ≡ (if leb capacity length then Echo.Silence else key_echo values key) }
{
    if EditLine::CAPACITY <= length {
        return Echo::Silence;
    }
    key_echo(values, key)
}

// What is echoed at a key.
#[tactic(auto, unfolding(crate::specs::Echo::echo_by, crate::specs::Echo::plain_echo))]
pub fn echo_of(values: Values, line: EditLine, key: u8) -> Echo
    ensures { result ≡ echoing values (text_of line) key }
{
    match kind_of(values, key) {
        Kind::DeleteCharacter => character_signal(values, 1),
        Kind::DeleteLine => line_signal(values, line.length() as u8),
        Kind::DisplayLine => Echo::Waiting,
        Kind::DeleteWord => character_signal(values, line.last_word() as u8),
        Kind::Forward => key_echo(values, key),
        Kind::Plain => plain_echo(values, line.length(), key),
    }
}

// A character, wiped from a display.
const RUBOUT: [u8; 3] = [BS, SPACE, BS];

const NEW_LINE: [u8; 2] = [CR, LF];

const STRUCK: [u8; 5] = [b'X', b'X', b'X', CR, LF];

// How many bytes an echo has.
#[tactic(auto, using(crate::proofs::EchoLaws::rubouts_length), unfolding(crate::specs::Echo::bytes_of))]
pub fn echo_length(echo: Echo, line: EditLine) -> usize
    ensures { result ≡ length (bytes_of echo (text_of line)) }
{
    match echo {
        Echo::Silence => 0,
        Echo::Repeated { byte: _, times } => times as usize,
        Echo::Rubouts(times) => RUBOUT.len() * times as usize,
        Echo::NewLine => NEW_LINE.len(),
        Echo::Struck => STRUCK.len(),
        Echo::Waiting => line.length(),
    }
}

fn repeated_at(byte: u8, times: u8, i: usize) -> u8
    ensures { result ≡ get_or (replicate times byte) i 0 }
{
    if i < times as usize { byte } else { 0 }
}

#[tactic(auto, using(crate::proofs::EchoLaws::rubout_past, crate::proofs::EchoLaws::rubout_within))]
fn rubout_at(times: u8, i: usize) -> u8
    ensures { result ≡ get_or (rubouts times) i 0 }
{
    if i / RUBOUT.len() < times as usize {
        return RUBOUT[i % RUBOUT.len()];
    }
    0
}

fn byte_at(bytes: &[u8], i: usize) -> u8
    ensures { result ≡ get_or bytes.now i 0 }
{
    bytes.get(i).copied().unwrap_or(0)
}

// An echo's byte at a place; past the last, 0.
#[tactic(auto, unfolding(crate::specs::Echo::bytes_of))]
pub fn echo_at(echo: Echo, line: EditLine, i: usize) -> u8
    ensures { result ≡ get_or (bytes_of echo (text_of line)) i 0 }
{
    match echo {
        Echo::Silence => 0,
        Echo::Repeated { byte, times } => repeated_at(byte, times, i),
        Echo::Rubouts(times) => rubout_at(times, i),
        Echo::NewLine => byte_at(&NEW_LINE, i),
        Echo::Struck => byte_at(&STRUCK, i),
        Echo::Waiting => line.at(i),
    }
}
