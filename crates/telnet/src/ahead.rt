// Most subnegotiations stand whole in the input, none of their bytes doubled. Such a one is seen at once.
ghost use Rattle.std.specs.Prelude.{◌≡◌};
ghost use Rattle.telnet.specs.Stream.{ahead_of, sub_from};

use crate::Phase;
use crate::code::{IAC, SB, SE};
use crate::stretch::data_end;

// A whole subnegotiation: its bytes stand from `start` up to `end`, and reading goes on at rest, at `next`.
#[derive(Clone, Copy, Debug, PartialEq, Eq)]
pub struct WholeSub {
    pub option: u8,
    pub start: usize,
    pub end: usize,
    pub next: usize,
}

// After an IAC.
#[tactic(auto, using(crate::proofs::AheadLaws::looking_ahead))]
fn sub_from(input: &[u8], from: usize) -> Option<WholeSub>
    ensures { result ≡ sub_from input.now from }
{
    if *input.get(from)? != SB {
        return None;
    }
    let option = *input.get(from + 1)?;
    if option == IAC {
        return None;
    }
    let start = from + 2;
    let end = data_end(input, start);
    if *input.get(end + 1)? != SE {
        return None;
    }
    Some(WholeSub {
        option,
        start,
        end,
        next: end + 2,
    })
}

// In any phase.
#[tactic(auto, unfolding(crate::specs::Stream::ahead_of))]
pub fn look_ahead(phase: Phase, input: &[u8], from: usize) -> Option<WholeSub>
    ensures { result ≡ ahead_of phase input.now from }
{
    match phase {
        Phase::Iac => sub_from(input, from),
        _ => None,
    }
}
