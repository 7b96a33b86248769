// Bytes into the reply, as they are and as a payload.
ghost use Rattle.std.specs.Prelude.{[], ◌∷◌};
ghost use Rattle.reply.specs.Pieces.{text_piece, doubled_pieces};
ghost use Rattle.reply.specs.Written.{Puts};

use crate::Reply;
use edit::text::copy_text;
use telnet::code::IAC;

impl Reply<'_> {
    // The text of a range of cells.
    pub(crate) fn put_range(&mut self, chars: &[u8], from: usize, end: usize)
        ensures { Puts self.old (text_piece from end chars.now ∷ []) self.new }
    {
        self.at = copy_text(chars, self.buffer, from, end, self.at);
    }

    pub(crate) fn put_bytes(&mut self, bytes: &[u8])
        ensures { Puts self.old (bytes.now ∷ []) self.new }
    {
        self.put_range(bytes, 0, bytes.len());
    }

    // A byte of a payload: IAC is written twice.
    #[tactic(auto, unfolding(crate::specs::Pieces::doubled_pieces))]
    pub(crate) fn put_doubled(&mut self, byte: u8)
        ensures { Puts self.old (doubled_pieces (byte ∷ [])) self.new }
    {
        if byte == IAC {
            return self.put_bytes(&[IAC, IAC]);
        }
        self.put_bytes(&[byte]);
    }

    // The payload of a subnegotiation.
    #[tactic(auto, using(crate::proofs::WriteLaws::doubling))]
    pub(crate) fn put_payload(&mut self, payload: &[u8])
        ensures { Puts self.old (doubled_pieces payload.now) self.new }
    {
        for byte in payload {
            self.put_doubled(*byte);
        }
    }
}
