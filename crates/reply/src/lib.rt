// Replies, written into the lent buffer from a place on. A piece that does not fit is left out: nothing is asked of the caller.
#![tactic(auto)]

ghost use Rattle.std.specs.Prelude.{◌≡◌, ◌-◌, length};
ghost use Rattle.reply.specs.Pieces.{say_pieces};
ghost use Rattle.reply.specs.Written.{Puts};

use crate::transmission::transmit_code;
use command::number::DET;
use decide::decision::Say;
use rules::Edition;

mod bytes;
mod field;
mod message;
mod modified;
mod response;
mod single;
mod transmission;

// The lent screen buffers.
#[derive(Clone, Copy)]
pub struct Screen<'a> {
    pub chars: &'a [u8],
    pub attrs: &'a [u8],
    pub marks: &'a [u8],
}

// The lent buffer, and the place in it that is written next.
#[derive(Drop)]
pub struct Reply<'a> {
    pub buffer: &'a mut [u8],
    pub at: usize,
}

impl Reply<'_> {
    // How many bytes there is room for.
    pub fn room(&self) -> usize
        ensures { result ≡ length self.now.buffer.now - self.now.at }
    {
        self.buffer.len().saturating_sub(self.at)
    }

    // What is said, with the codes of an edition, written from the characters and the marks as they are.
    #[tactic(auto, using(crate::proofs::WriteLaws::puts_none))]
    pub fn say(&mut self, edition: Edition, say: Say, screen: Screen<'_>)
        ensures { Puts self.old
            (say_pieces edition screen.entry.chars.now screen.entry.attrs.now screen.entry.marks.now say) self.new }
    {
        match say {
            Say::Silent => {}
            Say::Negotiation { verb, option } => self.put_negotiation(verb, option),
            Say::Two { code, a } => self.put_message(DET, &[code, a]),
            Say::Three { code, a, b } => self.put_message(DET, &[code, a, b]),
            Say::Preface(place) => self.put_preface(transmit_code(edition), place),
            Say::Text { place, from, end } => self.put_text(
                transmit_code(edition),
                place,
                screen.chars,
                from,
                end,
            ),
            Say::Fields(place) => self.put_form(edition, place, screen),
            Say::Modified { width } => self.put_modified(transmit_code(edition), width, screen),
        }
    }
}
