// Where a turn starts. A reader in a message of option 30 takes one byte after the other, and no turn.
ghost use Rattle.std.specs.Prelude.{◌≡◌, ◌<◌, false, length};
ghost use Rattle.det.specs.Inner.Message.{in_message};

use command::number::X3;
use rules::{Frame, Reader};
use telnet::Phase;

// Does the reader stand in a message of option 30?
#[tactic(auto, unfolding(crate::specs::Inner::Message::in_message))]
pub(crate) fn in_message(phase: Phase) -> bool
    ensures { result ≡ in_message phase }
{
    match phase {
        Phase::Inside(option) | Phase::InsideIac(option) => option == X3,
        _ => false,
    }
}

// The input, of which something is left from `from` on, and what a turn goes by. Of the PAD that is `lf` alone: is CR LF printed as such?
#[derive(Clone, Copy, Debug, PartialEq, Eq)]
pub struct Start<'a> {
    pub input: &'a [u8],
    pub from: usize,
    pub frame: &'a Frame,
    pub reader: &'a Reader,
    pub lf: bool,
    ghost outside: { in_message reader.now.phase ≡ false },
    ghost more: { from < length input.now },
}
