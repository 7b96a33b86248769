// What the bytes of a session must be; numbers merely out of range are for the rules to refuse.
ghost use Rattle.std.specs.Prelude.{◌≡◌};
ghost use Rattle.layout.specs.Layout.{has_flags, is_phase, is_stage, has_places};

use crate::SESSION_LENGTH;

// Is each flag 0 or 1, and so the edition?
pub(crate) fn has_flags(bytes: &[u8; SESSION_LENGTH]) -> bool
    ensures { result ≡ has_flags bytes.now }
{
    bytes[5] <= 1 && bytes[6] <= 1 && bytes[7] <= 1 && bytes[17] <= 1 && bytes[211] <= 1
}

// Is it one of the ten places, with an option only where one is being read?
fn is_phase(number: u8, option: u8) -> bool
    ensures { result ≡ is_phase number option }
{
    number <= 9 && (8 <= number || option == 0)
}

// Is it one of the three stages, with a code and a parameter only where they are read?
fn is_stage(number: u8, code: u8, parameter: u8) -> bool
    ensures { result ≡ is_stage number code parameter }
{
    match number {
        0 => code == 0 && parameter == 0,
        1 => parameter == 0,
        _ => number == 2,
    }
}

// Are the reader's place and the message's stage among those that there are?
pub(crate) fn has_places(bytes: &[u8; SESSION_LENGTH]) -> bool
    ensures { result ≡ has_places bytes.now }
{
    is_phase(bytes[8], bytes[9]) && is_stage(bytes[175], bytes[176], bytes[177])
}
