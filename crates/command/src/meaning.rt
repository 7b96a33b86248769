// The list of commands that are received: what each means, how many parameters it takes, and the facility that governs it.
ghost use Rattle.std.specs.Prelude.{◌≡◌};
ghost use Rattle.rules.specs.Command.{rows, row_in, meaning};

use crate::facility;
use crate::number::*;
use edit::range::Shift::*;
use rules::Area::*;
use rules::Command::*;
use rules::Destination::*;
use rules::Facility::*;
use rules::{Code, Command, Governor};

fn known(command: Command, parameters: u8, governor: Option<Governor>) -> Option<Code>
    ensures { result ≡ Some (record { command = command; parameters = parameters; governor = governor }) }
{
    Some(Code {
        command,
        parameters,
        governor,
    })
}

// What the row of this command says: its meaning, how many parameters it takes, and what governs it. What is sent only has none.
#[tactic(auto, unfolding(rules::specs::Facility::weight, rules::specs::Command::rows, rules::specs::Command::row_in, rules::specs::Command::meaning))]
pub(crate) fn meaning_of(command: u8) -> Option<Code>
    ensures { result ≡ meaning (row_in rows command) }
{
    match command {
        EDIT_FACILITIES => known(Facilities(Editing), 1, None),
        ERASE_FACILITIES => known(Facilities(Erasing), 1, None),
        TRANSMIT_FACILITIES => known(Facilities(Transmitting), 1, None),
        FORMAT_FACILITIES => known(Facilities(Formatting), 2, None),
        MOVE_CURSOR => known(MoveCursor, 2, None),
        SKIP_TO_LINE => known(SkipToLine, 1, facility::TOROIDAL_ADDRESSING),
        SKIP_TO_CHAR => known(SkipToChar, 1, facility::TOROIDAL_ADDRESSING),
        UP => known(Move(Up), 0, facility::INCREMENTAL_ADDRESSING),
        DOWN => known(Move(Down), 0, facility::INCREMENTAL_ADDRESSING),
        LEFT => known(Move(Left), 0, facility::INCREMENTAL_ADDRESSING),
        RIGHT => known(Move(Right), 0, facility::INCREMENTAL_ADDRESSING),
        HOME => known(Move(Home), 0, None),
        LINE_INSERT => known(LineShift(Insertion), 0, facility::LINE_INSERT_DELETE),
        LINE_DELETE => known(LineShift(Deletion), 0, facility::LINE_INSERT_DELETE),
        CHAR_INSERT => known(CharShift(Insertion), 0, facility::CHAR_INSERT_DELETE),
        CHAR_DELETE => known(CharShift(Deletion), 0, facility::CHAR_INSERT_DELETE),
        READ_CURSOR => known(ReadCursor, 0, facility::READ_CURSOR_ADDRESS),
        REVERSE_TAB => known(Move(ReverseTab), 0, facility::BACK_TAB),
        TRANSMIT_SCREEN => known(Transmit(WholeScreen), 0, None),
        TRANSMIT_UNPROTECTED => known(Transmit(Unprotected), 0, facility::PROTECTION),
        TRANSMIT_LINE => known(Transmit(WholeLine), 0, facility::TRANSMIT_LINE),
        TRANSMIT_FIELD => known(Transmit(WholeField), 0, facility::TRANSMIT_FIELD),
        TRANSMIT_REST_OF_SCREEN => known(
            Transmit(RestOfScreen),
            0,
            facility::TRANSMIT_REST_OF_SCREEN,
        ),
        TRANSMIT_REST_OF_LINE => known(Transmit(RestOfLine), 0, facility::TRANSMIT_REST_OF_LINE),
        TRANSMIT_REST_OF_FIELD => known(Transmit(RestOfField), 0, facility::TRANSMIT_REST_OF_FIELD),
        TRANSMIT_MODIFIED => known(TransmitModified, 0, facility::MODIFIED),
        ERASE_SCREEN => known(Erase(WholeScreen), 0, None),
        ERASE_LINE => known(Erase(WholeLine), 0, facility::ERASE_LINE),
        ERASE_FIELD => known(Erase(WholeField), 0, facility::ERASE_FIELD),
        ERASE_REST_OF_SCREEN => known(Erase(RestOfScreen), 0, facility::ERASE_REST_OF_SCREEN),
        ERASE_REST_OF_LINE => known(Erase(RestOfLine), 0, facility::ERASE_REST_OF_LINE),
        ERASE_REST_OF_FIELD => known(Erase(RestOfField), 0, facility::ERASE_REST_OF_FIELD),
        ERASE_UNPROTECTED => known(Erase(Unprotected), 0, facility::PROTECTION),
        FORMAT_DATA => known(FormatData, 4, None),
        REPEAT => known(Repeat, 2, facility::REPEATING),
        SUPPRESS_PROTECTION => known(SuppressProtection, 1, facility::PROTECTION_ON_OFF),
        ERROR => known(Error, 2, None),
        _ => None,
    }
}
