// The codes of what the terminal sends, in either edition.
ghost use Rattle.std.specs.Prelude.{◌≡◌};
ghost use Rattle.rules.specs.Edition.{code_for};
ghost use Rattle.command.specs.Sent.{number_of};

use crate::code::code_of;
use crate::number;
use rules::Edition;

// What is sent by a code of its own.
#[derive(Clone, Copy, Debug, PartialEq, Eq)]
pub enum Sent {
    CursorPosition,
    DataTransmit,
    SuppressProtection,
    FieldSeparator,
    FunctionKey,
    Error,
}

// By document 01's codes.
#[tactic(auto, unfolding(crate::specs::Sent::number_of))]
fn number_of(sent: Sent) -> u8
    ensures { result ≡ number_of sent }
{
    match sent {
        Sent::CursorPosition => number::CURSOR_POSITION,
        Sent::DataTransmit => number::DATA_TRANSMIT,
        Sent::SuppressProtection => number::SUPPRESS_PROTECTION,
        Sent::FieldSeparator => number::FIELD_SEPARATOR,
        Sent::FunctionKey => number::FN,
        Sent::Error => number::ERROR,
    }
}

// Its code in an edition.
#[tactic(auto, using(crate::proofs::CodeLaws::sent_held))]
pub fn code(edition: Edition, sent: Sent) -> u8
    ensures { result ≡ code_for edition (number_of sent) }
{
    code_of(edition, number_of(sent))
}
