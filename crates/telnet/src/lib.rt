// Reads Telnet bytes (RFC 854, RFC 855), one at a time, and tells what they are: at most one event for each byte.
// It knows nothing of screens or of any option's meaning, and holds no payload: whoever wants a
// subnegotiation's bytes keeps them as they are told.
#![tactic(auto)]

ghost use Rattle.std.specs.Prelude.{◌≡◌};
ghost use Rattle.telnet.specs.Reader.{verb_code, ReadsVerb};
ghost use Rattle.telnet.specs.Reader.{silent, after_iac, thrown_away, opening, opening_iac, inside, inside_iac, read_of};

pub mod ahead;
pub mod code;
pub mod stretch;

use code::{DO, DONT, IAC, SB, SE, WILL, WONT};

// The four commands that take an option byte.
#[derive(Clone, Copy, Debug, PartialEq, Eq)]
pub enum Verb {
    Will,
    Wont,
    Do,
    Dont,
}

// A byte that is no verb.
#[derive(Clone, Copy, Debug, PartialEq, Eq)]
pub struct NoVerb(pub u8);

impl From<Verb> for u8 {
    ghost from_gives = { λ verb byte. byte ≡ verb_code verb };

    fn from(verb: Verb) -> u8 {
        match verb {
            Verb::Will => WILL,
            Verb::Wont => WONT,
            Verb::Do => DO,
            Verb::Dont => DONT,
        }
    }
}

impl TryFrom<u8> for Verb {
    type Error = NoVerb;

    ghost try_from_gives = { ReadsVerb };

    fn try_from(byte: u8) -> Result<Self, NoVerb> {
        match byte {
            WILL => Ok(Verb::Will),
            WONT => Ok(Verb::Wont),
            DO => Ok(Verb::Do),
            DONT => Ok(Verb::Dont),
            _ => Err(NoVerb(byte)),
        }
    }
}

// Where in the stream the reader stands. Every value is a place it can stand at.
#[derive(Clone, Copy, Debug, PartialEq, Eq)]
pub enum Phase {
    // outside any command
    Rest,
    // after IAC
    Iac,
    // after IAC and a verb: the option byte is next
    Negotiating(Verb),
    // after IAC SB: the option byte is next
    Opening,
    // after IAC SB IAC
    OpeningIac,
    // in the subnegotiation of this option
    Inside(u8),
    // in it, after IAC
    InsideIac(u8),
}

// What a byte tells. No Option: each rule has `Nothing` as one case beside the others, and would match twice.
#[derive(Clone, Copy, Debug, PartialEq, Eq)]
pub enum Event {
    // nothing yet, or a command that does nothing
    Nothing,
    Data(u8),
    Negotiation { verb: Verb, option: u8 },
    // the option byte of a subnegotiation
    Begin(u8),
    // a byte of the subnegotiation of this option
    Sub { option: u8, byte: u8 },
    // the end of the subnegotiation of this option
    End(u8),
    // the end of a subnegotiation that had no option byte
    EndBare,
    // a subnegotiation thrown away, with or without its option byte read: another command begins in it
    Lost,
}

// Where the reader stands after a byte, and what the byte told.
#[derive(Clone, Copy, Debug, PartialEq, Eq)]
pub struct Step {
    pub phase: Phase,
    pub event: Event,
}

impl Step {
    // A byte that tells nothing.
    fn silent(phase: Phase) -> Step
        ensures { result ≡ silent phase }
    {
        Step {
            phase,
            event: Event::Nothing,
        }
    }
}

// A byte after IAC, outside a subnegotiation.
#[tactic(auto, using(crate::proofs::Laws::verb_waits, crate::proofs::Laws::no_verb_rests), unfolding(crate::specs::Reader::after_iac))]
fn command(byte: u8) -> Step
    ensures { result ≡ after_iac byte }
{
    match byte {
        IAC => Step {
            phase: Phase::Rest,
            event: Event::Data(IAC),
        },
        SB => Step::silent(Phase::Opening),
        _ => match Verb::try_from(byte) {
            Ok(verb) => Step::silent(Phase::Negotiating(verb)),
            Err(_) => Step::silent(Phase::Rest),
        },
    }
}

// A byte after IAC in a subnegotiation that is neither IAC nor SE: obeyed as if outside.
#[tactic(auto, unfolding(crate::specs::Reader::thrown_away))]
fn throw_away(byte: u8) -> Step
    ensures { result ≡ thrown_away byte }
{
    Step {
        event: Event::Lost,
        ..command(byte)
    }
}

// A byte after IAC SB.
#[tactic(auto, unfolding(crate::specs::Reader::opening))]
fn open_sub(byte: u8) -> Step
    ensures { result ≡ opening byte }
{
    match byte {
        IAC => Step::silent(Phase::OpeningIac),
        _ => Step {
            phase: Phase::Inside(byte),
            event: Event::Begin(byte),
        },
    }
}

// A byte after IAC SB IAC.
#[tactic(auto, unfolding(crate::specs::Reader::opening_iac))]
fn open_sub_iac(byte: u8) -> Step
    ensures { result ≡ opening_iac byte }
{
    match byte {
        IAC => Step {
            phase: Phase::Inside(IAC),
            event: Event::Begin(IAC),
        },
        SE => Step {
            phase: Phase::Rest,
            event: Event::EndBare,
        },
        _ => throw_away(byte),
    }
}

// A byte in the subnegotiation of this option.
#[tactic(auto, unfolding(crate::specs::Reader::inside))]
fn in_sub(option: u8, byte: u8) -> Step
    ensures { result ≡ inside option byte }
{
    match byte {
        IAC => Step::silent(Phase::InsideIac(option)),
        _ => Step {
            phase: Phase::Inside(option),
            event: Event::Sub { option, byte },
        },
    }
}

// A byte after IAC in the subnegotiation of this option.
#[tactic(auto, unfolding(crate::specs::Reader::inside_iac))]
fn in_sub_iac(option: u8, byte: u8) -> Step
    ensures { result ≡ inside_iac option byte }
{
    match byte {
        IAC => Step {
            phase: Phase::Inside(option),
            event: Event::Sub { option, byte: IAC },
        },
        SE => Step {
            phase: Phase::Rest,
            event: Event::End(option),
        },
        _ => throw_away(byte),
    }
}

// A byte outside any command.
#[tactic(auto, unfolding(crate::specs::Reader::read_of))]
fn at_rest(byte: u8) -> Step
    ensures { result ≡ read_of Phase.Rest byte }
{
    match byte {
        IAC => Step::silent(Phase::Iac),
        _ => Step {
            phase: Phase::Rest,
            event: Event::Data(byte),
        },
    }
}

// One byte.
#[tactic(auto, unfolding(crate::specs::Reader::read_of))]
pub fn read(phase: Phase, byte: u8) -> Step
    ensures { result ≡ read_of phase byte }
{
    match phase {
        Phase::Rest => at_rest(byte),
        Phase::Iac => command(byte),
        Phase::Negotiating(verb) => Step {
            phase: Phase::Rest,
            event: Event::Negotiation { verb, option: byte },
        },
        Phase::Opening => open_sub(byte),
        Phase::OpeningIac => open_sub_iac(byte),
        Phase::Inside(option) => in_sub(option, byte),
        Phase::InsideIac(option) => in_sub_iac(option, byte),
    }
}
