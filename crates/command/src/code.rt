// The codes of either edition: what a code means when it is read, and which code a command has when it is written.
ghost use Rattle.std.specs.Prelude.{◌≡◌, true, ◌<◌};
ghost use Rattle.rules.specs.Edition.{code_for, holds};
ghost use Rattle.rules.specs.Command.{row_of, meaning};
ghost use Rattle.command.specs.Inner.Codes.{array_of, entry_of};

use crate::meaning::meaning_of;
use crate::number::*;
use rules::{Code, Edition};

// The command that a code means; what is sent only stands here too, since its code is written by the table.
#[derive(Clone, Copy, Debug, PartialEq, Eq)]
struct Entry(u8);

const COUNT: u8 = 42;

// By code, RFC 731's (June) and RFC 732's (September). June has no TRANSMIT MODIFIED, and every later code is one lower.
const CODES: [[Entry; 42]; 2] = [
    [
        Entry(NONE), // 0
        Entry(EDIT_FACILITIES), // 1
        Entry(ERASE_FACILITIES), // 2
        Entry(TRANSMIT_FACILITIES), // 3
        Entry(FORMAT_FACILITIES), // 4
        Entry(MOVE_CURSOR), // 5
        Entry(SKIP_TO_LINE), // 6
        Entry(SKIP_TO_CHAR), // 7
        Entry(UP), // 8
        Entry(DOWN), // 9
        Entry(LEFT), // 10
        Entry(RIGHT), // 11
        Entry(HOME), // 12
        Entry(LINE_INSERT), // 13
        Entry(LINE_DELETE), // 14
        Entry(CHAR_INSERT), // 15
        Entry(CHAR_DELETE), // 16
        Entry(READ_CURSOR), // 17
        Entry(CURSOR_POSITION), // 18: sent
        Entry(REVERSE_TAB), // 19
        Entry(TRANSMIT_SCREEN), // 20
        Entry(TRANSMIT_UNPROTECTED), // 21
        Entry(TRANSMIT_LINE), // 22
        Entry(TRANSMIT_FIELD), // 23
        Entry(TRANSMIT_REST_OF_SCREEN), // 24
        Entry(TRANSMIT_REST_OF_LINE), // 25
        Entry(TRANSMIT_REST_OF_FIELD), // 26
        Entry(DATA_TRANSMIT), // 27: sent
        Entry(ERASE_SCREEN), // 28
        Entry(ERASE_LINE), // 29
        Entry(ERASE_FIELD), // 30
        Entry(ERASE_REST_OF_SCREEN), // 31
        Entry(ERASE_REST_OF_LINE), // 32
        Entry(ERASE_REST_OF_FIELD), // 33
        Entry(ERASE_UNPROTECTED), // 34
        Entry(FORMAT_DATA), // 35
        Entry(REPEAT), // 36
        Entry(SUPPRESS_PROTECTION), // 37
        Entry(FIELD_SEPARATOR), // 38: sent
        Entry(FN), // 39: sent
        Entry(ERROR), // 40
        Entry(NONE), // 41
    ],
    [
        Entry(NONE), // 0
        Entry(EDIT_FACILITIES), // 1
        Entry(ERASE_FACILITIES), // 2
        Entry(TRANSMIT_FACILITIES), // 3
        Entry(FORMAT_FACILITIES), // 4
        Entry(MOVE_CURSOR), // 5
        Entry(SKIP_TO_LINE), // 6
        Entry(SKIP_TO_CHAR), // 7
        Entry(UP), // 8
        Entry(DOWN), // 9
        Entry(LEFT), // 10
        Entry(RIGHT), // 11
        Entry(HOME), // 12
        Entry(LINE_INSERT), // 13
        Entry(LINE_DELETE), // 14
        Entry(CHAR_INSERT), // 15
        Entry(CHAR_DELETE), // 16
        Entry(READ_CURSOR), // 17
        Entry(CURSOR_POSITION), // 18: sent
        Entry(REVERSE_TAB), // 19
        Entry(TRANSMIT_SCREEN), // 20
        Entry(TRANSMIT_UNPROTECTED), // 21
        Entry(TRANSMIT_LINE), // 22
        Entry(TRANSMIT_FIELD), // 23
        Entry(TRANSMIT_REST_OF_SCREEN), // 24
        Entry(TRANSMIT_REST_OF_LINE), // 25
        Entry(TRANSMIT_REST_OF_FIELD), // 26
        Entry(TRANSMIT_MODIFIED), // 27
        Entry(DATA_TRANSMIT), // 28: sent
        Entry(ERASE_SCREEN), // 29
        Entry(ERASE_LINE), // 30
        Entry(ERASE_FIELD), // 31
        Entry(ERASE_REST_OF_SCREEN), // 32
        Entry(ERASE_REST_OF_LINE), // 33
        Entry(ERASE_REST_OF_FIELD), // 34
        Entry(ERASE_UNPROTECTED), // 35
        Entry(FORMAT_DATA), // 36
        Entry(REPEAT), // 37
        Entry(SUPPRESS_PROTECTION), // 38
        Entry(FIELD_SEPARATOR), // 39: sent
        Entry(FN), // 40: sent
        Entry(ERROR), // 41
    ],
];

// Which of the two arrays is an edition's.
fn array_of(edition: Edition) -> usize
    ensures { result ≡ array_of edition }
{
    match edition {
        Edition::June => 0,
        Edition::September => 1,
    }
}

fn entry_of(edition: Edition, code: u8) -> Entry
    requires { code < 42 }
    ensures { result ≡ entry_of edition code }
{
    let entries = CODES[array_of(edition)];
    entries[code as usize]
}

#[tactic(auto, using(crate::proofs::CodeLaws::entry_means, crate::proofs::CodeLaws::past_table))]
pub fn command_of(edition: Edition, code: u8) -> Option<Code>
    ensures { result ≡ meaning (row_of edition code) }
{
    if code >= COUNT {
        return None;
    }
    let entry = entry_of(edition, code);
    meaning_of(entry.0)
}

// A command that the edition has is meant by its own number, or else by the one below.
#[tactic(auto, using(crate::proofs::CodeLaws::in_table, crate::proofs::CodeLaws::code_here, crate::proofs::CodeLaws::code_below))]
pub(crate) fn code_of(edition: Edition, command: u8) -> u8
    requires { holds edition command ≡ true }
    ensures { result ≡ code_for edition command }
{
    let entry = entry_of(edition, command);
    if entry.0 == command {
        return command;
    }
    command - 1
}
