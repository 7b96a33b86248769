// Stretches of bytes without IAC. At rest each of them is data, in a subnegotiation a byte of its payload, so whoever reads a
// whole slice need not ask the reader about each.
ghost use Rattle.std.specs.Prelude.{◌≡◌, ◌==◌, true, not, ◌+◌, ◌≤◌, ◌<◌, length};
ghost use Rattle.std.specs.List.{prefix_len};
ghost use Rattle.telnet.specs.declared.Phase.TheVariants.{Rest, Inside};
ghost use Rattle.telnet.specs.Reader.{iac};
ghost use Rattle.telnet.specs.Stream.{before_iac, data_end, stretch_of};

use crate::code::IAC;
use crate::{Phase, read};

// The bytes of a stretch end before `end`, at an IAC or with the input. Reading goes on at `next`, after that IAC, in `phase`.
#[derive(Clone, Copy, Debug, PartialEq, Eq)]
pub struct Stretch {
    pub end: usize,
    pub next: usize,
    pub phase: Phase,
}

// How many bytes stand before the first IAC; all, where there is none.
fn one_by_one(bytes: &[u8]) -> usize
    ensures { result ≡ prefix_len (λ b. not (b == iac)) bytes.now }
{
    bytes.iter().take_while(|byte| **byte != IAC).count()
}

// No IAC among these bytes? Their number is constant and the loop has one way out, so that the compiler tests many at once.
#[tactic(auto, using(crate::proofs::BeforeLaws::before_more), unfolding(crate::specs::Stream::before_iac))]
fn is_data<const N: usize>(bytes: &[u8; N]) -> bool
    ensures { result ≡ true → before_iac bytes.now ≡ N }
{
    let mut all = true;
    for byte in bytes {
        all &= *byte != IAC;
    }
    all
}

// What is left after as many chunks of N bytes as have no IAC.
#[tactic(auto, using(crate::proofs::BeforeLaws::before_past))]
fn past_chunks<const N: usize>(bytes: &[u8]) -> &[u8]
    requires { (0 < N) × (N ≤ 64) }
    ensures within { length result.now ≤ length bytes.now }
    ensures passed { before_iac bytes.now + length result.now ≡ length bytes.now + before_iac result.now }
{
    let mut rest = bytes;
    while let Some((chunk, more)) = rest.split_first_chunk::<N>()
        && is_data(chunk)
    {
        rest = more;
    }
    rest
}

// The same as one by one, by the longest steps first.
#[tactic(auto, using(crate::proofs::BeforeLaws::before_within, crate::proofs::BeforeLaws::before_prefix))]
fn far(bytes: &[u8]) -> usize
    ensures { result ≡ before_iac bytes.now }
{
    let rest = past_chunks::<8>(past_chunks::<64>(bytes));
    bytes.len() - rest.len() + one_by_one(rest)
}

// The same. Most stretches are short, so the first eight bytes are looked at before any longer step.
#[tactic(auto, using(crate::proofs::BeforeLaws::before_hit, crate::proofs::BeforeLaws::before_prefix))]
fn before_iac(bytes: &[u8]) -> usize
    ensures { result ≡ before_iac bytes.now }
{
    let Some(eight) = bytes.first_chunk::<8>() else {
        return one_by_one(bytes);
    };
    let n = one_by_one(eight);
    if n < 8 { n } else { far(bytes) }
}

// The first IAC from `from` on; none, the input's end.
#[tactic(auto, using(crate::proofs::BeforeLaws::before_within), unfolding(crate::specs::Stream::data_end))]
pub(crate) fn data_end(input: &[u8], from: usize) -> usize
    requires { from ≤ length input.now }
    ensures { result ≡ data_end input.now from }
{
    from + before_iac(&input[from..])
}

// The stretch from `from` on, for a reader that its bytes leave in this phase.
#[tactic(auto, using(crate::proofs::StretchLaws::stretching))]
pub fn stretch_at(phase: Phase, input: &[u8], from: usize) -> Stretch
    ensures { result ≡ stretch_of phase input.now from }
{
    if input.len() <= from {
        return Stretch {
            end: from,
            next: from,
            phase,
        };
    }
    let end = data_end(input, from);
    if end < input.len() {
        return Stretch {
            end,
            next: end + 1,
            phase: read(phase, IAC).phase,
        };
    }
    Stretch {
        end,
        next: end,
        phase,
    }
}

// `stretch_at` says both of the next two. They stay because they are public and the crate det calls them.
// At rest: the data from `from` on.
pub fn data_at(input: &[u8], from: usize) -> Stretch
    ensures { result ≡ stretch_of Rest input.now from }
{
    stretch_at(Phase::Rest, input, from)
}

// In the subnegotiation of this option: its bytes from `from` on.
pub fn payload_at(option: u8, input: &[u8], from: usize) -> Stretch
    ensures { result ≡ stretch_of (Inside option) input.now from }
{
    stretch_at(Phase::Inside(option), input, from)
}
