// What a typed key is, and what it does to the edit line (RFC 1053, parameters 3, 15 to 18 and 129).
ghost use Rattle.std.specs.Prelude.{◌≡◌};
ghost use Rattle.pad.specs.Line.{text_of, line_of};
ghost use Rattle.typing.specs.Keys.{forward_set, plain_kind, deletes_word, edit_kind, editing, kind_of};
ghost use Rattle.typing.specs.Keys.{overfills, line_after};

use pad::ascii::{DEL, SPACE};
use pad::line::EditLine;
use pad::parameter::{
    CHARACTER_DELETE, EDITING, EXTENSION, FORWARDING, LINE_DELETE, LINE_DISPLAY, Values,
    WORD_DELETE, has, value,
};

// The first four are edit keys; Plain is neither an edit nor a forwarding key.
#[derive(Clone, Copy, Debug, PartialEq, Eq)]
pub enum Kind {
    DeleteCharacter,
    DeleteLine,
    DisplayLine,
    DeleteWord,
    Forward,
    Plain,
}

// By control character: its set under parameter 3.
static CONTROL_SETS: [u8; 32] = [
    64, // 0 NUL
    64, // 1 SOH
    64, // 2 STX
    16, // 3 ETX
    16, // 4 EOT
    4, // 5 ENQ
    4, // 6 ACK
    4, // 7 BEL
    64, // 8 BS
    32, // 9 HT
    32, // 10 LF
    32, // 11 VT
    32, // 12 FF
    2, // 13 CR
    64, // 14 SO
    64, // 15 SI
    64, // 16 DLE
    64, // 17 DC1
    8, // 18 DC2
    64, // 19 DC3
    64, // 20 DC4
    64, // 21 NAK
    64, // 22 SYN
    64, // 23 ETB
    8, // 24 CAN
    64, // 25 EM
    64, // 26 SUB
    4, // 27 ESC
    64, // 28 FS
    64, // 29 GS
    64, // 30 RS
    64, // 31 US
];

// Sets of the others: letters and digits; DEL, CAN and DC2.
const ALPHANUMERIC: u8 = 1;

const WITH_DEL: u8 = 8;

// The set that a key is in under parameter 3; 0 for none.
#[tactic(auto, unfolding(crate::specs::Keys::forward_set))]
fn forward_set(key: u8) -> u8
    ensures { result ≡ forward_set key }
{
    match key {
        ..SPACE => CONTROL_SETS[key as usize],
        DEL => WITH_DEL,
        b'0'..=b'9' | b'A'..=b'Z' | b'a'..=b'z' => ALPHANUMERIC,
        _ => 0,
    }
}

// No edit key: is it in a set that parameter 3 chooses?
#[tactic(auto, unfolding(crate::specs::Keys::forwards))]
fn plain_kind(values: Values, key: u8) -> Kind
    ensures { result ≡ plain_kind values key }
{
    if has(values, FORWARDING, forward_set(key)) {
        return Kind::Forward;
    }
    Kind::Plain
}

fn deletes_word(values: Values, key: u8) -> bool
    ensures { result ≡ deletes_word values key }
{
    value(values, EXTENSION) == 1 && key == value(values, WORD_DELETE)
}

// An edit key, by the lowest parameter that names it.
#[tactic(auto, unfolding(crate::specs::Keys::edit_kind))]
fn edit_kind(values: Values, key: u8) -> Kind
    ensures { result ≡ edit_kind values key }
{
    if key == value(values, CHARACTER_DELETE) {
        return Kind::DeleteCharacter;
    }
    if key == value(values, LINE_DELETE) {
        return Kind::DeleteLine;
    }
    if key == value(values, LINE_DISPLAY) {
        return Kind::DisplayLine;
    }
    if deletes_word(values, key) {
        return Kind::DeleteWord;
    }
    plain_kind(values, key)
}

// There are edit keys while parameter 15 is 1, and the value 0 names none.
fn is_editing(values: Values, key: u8) -> bool
    ensures { result ≡ editing values key }
{
    value(values, EDITING) == 1 && key != 0
}

// What a key is.
#[tactic(auto, unfolding(crate::specs::Keys::kind_of))]
pub fn kind_of(values: Values, key: u8) -> Kind
    ensures { result ≡ kind_of values key }
{
    if is_editing(values, key) {
        return edit_kind(values, key);
    }
    plain_kind(values, key)
}

// Refusal 10: neither an edit nor a forwarding key, and the line is full.
#[tactic(auto, unfolding(crate::specs::Keys::overfills))]
pub fn overfills(values: Values, line: EditLine, key: u8) -> bool
    ensures { result ≡ overfills values (text_of line) key }
{
    kind_of(values, key) == Kind::Plain && EditLine::CAPACITY <= line.length()
}

// The line after a key.
#[tactic(auto, unfolding(crate::specs::Keys::line_after, crate::specs::Keys::line_by))]
pub fn line_after(values: Values, line: EditLine, key: u8) -> EditLine
    ensures { result ≡ line_of (line_after values (text_of line) key) }
{
    match kind_of(values, key) {
        Kind::DeleteCharacter => line.without_last(),
        Kind::DeleteWord => line.without_word(),
        Kind::DeleteLine | Kind::Forward => EditLine::new(),
        Kind::DisplayLine => line.tidied(),
        Kind::Plain => line.push(key),
    }
}
