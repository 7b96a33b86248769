// Refusals meet document 01's numbers here, and nowhere else.
ghost use Rattle.std.specs.Prelude.{◌≡◌};
ghost use Rattle.rules.specs.Refusal.{number_of, told_number};

use rules::{Refusal, Verdict};

// The table's number. A function and no `From`: the type belongs to `rules`, which has definitions and no functions.
pub fn number_of(refusal: Refusal) -> u8
    ensures { result ≡ number_of refusal }
{
    match refusal {
        Refusal::Size => 1,
        Refusal::BufferLength => 2,
        Refusal::BadCharacter => 3,
        Refusal::BadSession => 4,
        Refusal::ReplyRoom => 5,
        Refusal::Guarded => 6,
        Refusal::WrongClass => 7,
        Refusal::DetOff => 8,
        Refusal::NoMeaning => 9,
        Refusal::LineFull => 10,
        Refusal::BadMark => 11,
        Refusal::UnknownEdition => 12,
    }
}

// The number that a call returns: 0 where it is taken.
pub fn told_number(verdict: Verdict) -> u8
    ensures { result ≡ told_number verdict }
{
    match verdict {
        Ok(()) => 0,
        Err(why) => number_of(why),
    }
}
