// The reader's places, a message's stages and the editions as numbers, and back.
ghost use Rattle.std.specs.Prelude.{◌≡◌};
ghost use Rattle.layout.specs.Layout.{phase_bytes, phase_of, stage_bytes, stage_of, edition_number, edition_numbered};

use pad::message::Stage;
use rules::Edition;
use telnet::{Phase, Verb};

// Where the reader stands: a number, and the option of the subnegotiation that it is in, 0 outside one.
#[derive(Clone, Copy, Debug, PartialEq, Eq)]
pub struct PhaseBytes {
    pub number: u8,
    pub option: u8,
}

// What is next in a message: a number, the message's code and the parameter that waits for its value, 0 where there is none.
#[derive(Clone, Copy, Debug, PartialEq, Eq)]
pub struct StageBytes {
    pub number: u8,
    pub code: u8,
    pub parameter: u8,
}

impl From<Phase> for PhaseBytes {
    ghost from_gives = { λ phase bytes. bytes ≡ phase_bytes phase };

    #[tactic(auto, unfolding(crate::specs::Layout::phase_bytes, crate::specs::Layout::verb_number))]
    fn from(phase: Phase) -> PhaseBytes {
        let (number, option) = match phase {
            Phase::Rest => (0, 0),
            Phase::Iac => (1, 0),
            Phase::Negotiating(Verb::Will) => (2, 0),
            Phase::Negotiating(Verb::Wont) => (3, 0),
            Phase::Negotiating(Verb::Do) => (4, 0),
            Phase::Negotiating(Verb::Dont) => (5, 0),
            Phase::Opening => (6, 0),
            Phase::OpeningIac => (7, 0),
            Phase::Inside(option) => (8, option),
            Phase::InsideIac(option) => (9, option),
        };
        PhaseBytes { number, option }
    }
}

// Any number above 8 is taken for 9.
impl From<PhaseBytes> for Phase {
    ghost from_gives = { λ bytes phase. phase ≡ phase_of bytes.number bytes.option };

    #[tactic(auto, unfolding(crate::specs::Layout::phase_of))]
    fn from(bytes: PhaseBytes) -> Phase {
        match bytes.number {
            0 => Phase::Rest,
            1 => Phase::Iac,
            2 => Phase::Negotiating(Verb::Will),
            3 => Phase::Negotiating(Verb::Wont),
            4 => Phase::Negotiating(Verb::Do),
            5 => Phase::Negotiating(Verb::Dont),
            6 => Phase::Opening,
            7 => Phase::OpeningIac,
            8 => Phase::Inside(bytes.option),
            _ => Phase::InsideIac(bytes.option),
        }
    }
}

impl From<Stage> for StageBytes {
    ghost from_gives = { λ stage bytes. bytes ≡ stage_bytes stage };

    #[tactic(auto, unfolding(crate::specs::Layout::stage_bytes))]
    fn from(stage: Stage) -> StageBytes {
        let (number, code, parameter) = match stage {
            Stage::Code => (0, 0, 0),
            Stage::Parameter(code) => (1, code, 0),
            Stage::Value { code, parameter } => (2, code, parameter),
        };
        StageBytes {
            number,
            code,
            parameter,
        }
    }
}

// Any number above 1 is taken for 2.
impl From<StageBytes> for Stage {
    ghost from_gives = { λ bytes stage. stage ≡ stage_of bytes.number bytes.code bytes.parameter };

    #[tactic(auto, unfolding(crate::specs::Layout::stage_of))]
    fn from(bytes: StageBytes) -> Stage {
        let StageBytes {
            number,
            code,
            parameter,
        } = bytes;
        match number {
            0 => Stage::Code,
            1 => Stage::Parameter(code),
            _ => Stage::Value { code, parameter },
        }
    }
}

// A function, and no `From`: an impl of another crate's trait has to name a type of this crate, and neither of these is one.
#[tactic(auto, unfolding(crate::specs::Layout::edition_number))]
pub(crate) fn edition_number(edition: Edition) -> u8
    ensures { result ≡ edition_number edition }
{
    match edition {
        Edition::June => 0,
        Edition::September => 1,
    }
}

// Any number above 0 is taken for 1.
#[tactic(auto, unfolding(crate::specs::Layout::edition_numbered))]
pub(crate) fn edition_numbered(number: u8) -> Edition
    ensures { result ≡ edition_numbered number }
{
    match number {
        0 => Edition::June,
        _ => Edition::September,
    }
}
