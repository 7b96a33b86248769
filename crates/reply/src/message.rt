// Telnet commands into the reply: negotiations and messages.
ghost use Rattle.std.specs.Prelude.{[], ◌∷◌};
ghost use Rattle.telnet.specs.Writer.{negotiation};
ghost use Rattle.reply.specs.Pieces.{message_pieces};
ghost use Rattle.reply.specs.Written.{Puts};

use crate::Reply;
use telnet::Verb;
use telnet::code::{IAC, SB, SE};

impl Reply<'_> {
    // IAC verb option; the option is never doubled.
    #[tactic(auto, unfolding(telnet::specs::Writer::negotiation))]
    pub(crate) fn put_negotiation(&mut self, verb: Verb, option: u8)
        ensures { Puts self.old (negotiation verb option ∷ []) self.new }
    {
        self.put_bytes(&[IAC, u8::from(verb), option]);
    }

    // IAC SB option payload IAC SE
    pub(crate) fn put_message(&mut self, option: u8, payload: &[u8])
        ensures { Puts self.old (message_pieces option payload.now) self.new }
    {
        self.put_bytes(&[IAC, SB, option]);
        self.put_payload(payload);
        self.put_bytes(&[IAC, SE]);
    }
}
