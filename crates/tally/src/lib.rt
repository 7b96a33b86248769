// Counts what a Telnet stream holds, from a reader at rest. It is the reader used by itself: no screen, no option's meaning.
// Stretches of data and of payload are taken at once, and so are whole subnegotiations; the reader is asked about the other bytes.
#![tactic(auto)]

ghost use Rattle.std.specs.Prelude.{◌≡◌, true, ◌+◌, ◌≤◌, ◌<◌, ◌^◌, length, drop};
ghost use Rattle.telnet.specs.declared.Phase.TheVariants.{Rest};
ghost use Rattle.telnet.specs.Stream.{events_of};
ghost use Rattle.tally.specs.Counts.{tallied, plus, tally_of};
ghost use Rattle.tally.specs.Inner.Counting.{total, in_stretch, stretched};

use telnet::ahead::look_ahead;
use telnet::stretch::stretch_at;
use telnet::{Event, Phase, read};

// How many events of each kind.
#[derive(Clone, Copy, Debug, Default, PartialEq, Eq)]
pub struct Tally {
    pub data_bytes: usize,
    pub negotiations: usize,
    pub payload: usize,
    pub ended: usize,
}

impl Tally {
    // One event more.
    #[tactic(auto, unfolding(crate::specs::Counts::tallied, crate::specs::Counts::plus))]
    fn counted(mut self, event: Event) -> Self
        requires { total self + 1 < 2 ^ 64 }
        ensures { result ≡ plus self (tallied event) }
    {
        match event {
            Event::Data(_) => self.data_bytes += 1,
            Event::Negotiation { .. } => self.negotiations += 1,
            Event::Sub { .. } => self.payload += 1,
            Event::End(_) | Event::EndBare => self.ended += 1,
            Event::Nothing | Event::Begin(_) | Event::Lost => {}
        }
        self
    }

    // A stretch of so many bytes more.
    #[tactic(auto, unfolding(crate::specs::Counts::plus))]
    fn stretched(mut self, phase: Phase, bytes: usize) -> Self
        requires { total self + bytes < 2 ^ 64 }
        ensures { result ≡ plus self (stretched phase bytes) }
    {
        match phase {
            Phase::Inside(_) => self.payload += bytes,
            _ => self.data_bytes += bytes,
        }
        self
    }
}

// A stream read up to `at`: where the reader stands, and the counts so far. Those and the counts of what is left are those of the
// whole, and they fit, since no more is counted than bytes are read.
#[derive(Clone, Copy, Debug, PartialEq, Eq)]
struct Progress<'a> {
    input: &'a [u8],
    phase: Phase,
    at: usize,
    tally: Tally,
    ghost whole: { plus tally (tally_of (events_of phase (drop at input.now))) ≡ tally_of (events_of Rest input.now) },
    ghost few: { total tally ≤ at },
}

impl<'a> Progress<'a> {
    // Nothing is read.
    fn start(input: &'a [u8]) -> Self
        ensures { result.input.now ≡ input.now }
    {
        Progress {
            input,
            phase: Phase::Rest,
            at: 0,
            tally: Tally::default(),
        }
    }

    // One byte, by the reader. A caller that names the phase as a constant spares the test of it.
    fn byte(self, phase: Phase) -> Self
        requires here { phase ≡ self.phase }
        requires more { self.at < length self.input.now }
        ensures same { result.input.now ≡ self.entry.input.now }
        ensures further { self.entry.at < result.at }
    {
        let step = read(phase, self.input[self.at]);
        Progress {
            input: self.input,
            phase: step.phase,
            at: self.at + 1,
            tally: self.tally.counted(step.event),
        }
    }

    // In a stretch: its bytes up to the next IAC, and that IAC.
    fn stretch(self) -> Self
        requires inside { in_stretch self.phase ≡ true }
        requires more { self.at < length self.input.now }
        ensures same { result.input.now ≡ self.entry.input.now }
        ensures further { self.entry.at < result.at }
    {
        let stretch = stretch_at(self.phase, self.input, self.at);
        Progress {
            input: self.input,
            phase: stretch.phase,
            at: stretch.next,
            tally: self.tally.stretched(self.phase, stretch.end - self.at),
        }
    }

    // A whole subnegotiation, where one is ahead.
    fn whole_sub(self) -> Self
        ensures same { result.input.now ≡ self.entry.input.now }
        ensures forth { self.entry.at ≤ result.at }
    {
        let Some(whole) = look_ahead(self.phase, self.input, self.at) else {
            return self;
        };
        Progress {
            input: self.input,
            phase: Phase::Rest,
            at: whole.next,
            tally: Tally {
                payload: self.tally.payload + (whole.end - whole.start),
                ended: self.tally.ended + 1,
                ..self.tally
            },
        }
    }

    // The byte after an IAC, where one is left.
    fn after_iac(self) -> Self
        ensures same { result.input.now ≡ self.entry.input.now }
        ensures forth { self.entry.at ≤ result.at }
    {
        match self.phase {
            Phase::Iac if self.at < self.input.len() => self.byte(Phase::Iac),
            _ => self,
        }
    }

    // A stretch where the reader stands in one, and after data the subnegotiation ahead if that is whole, or the byte after the
    // IAC; else a byte.
    fn turn(self) -> Self
        requires { self.at < length self.input.now }
        ensures same { result.input.now ≡ self.entry.input.now }
        ensures further { self.entry.at < result.at }
    {
        match self.phase {
            Phase::Rest => self.stretch().whole_sub().after_iac(),
            Phase::Inside(_) => self.stretch(),
            _ => self.byte(self.phase),
        }
    }
}

// The counts of a whole stream. A turn is as long as what stands there.
#[tactic(auto, using(crate::proofs::Laws::counting_done))]
pub fn tally_of(input: &[u8]) -> Tally
    ensures { result ≡ tally_of (events_of Rest input.now) }
{
    let mut progress = Progress::start(input);
    while progress.at < input.len() {
        progress = progress.turn();
    }
    progress.tally
}
