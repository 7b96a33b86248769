// RESPONSE-IS, the PAD's answer to SEND, into the reply.
ghost use Rattle.rules.specs.Number.{x3_option};
ghost use Rattle.pad.specs.Response.{response_of};
ghost use Rattle.reply.specs.Pieces.{doubled_pieces, message_pieces};
ghost use Rattle.reply.specs.Written.{Puts};

use crate::Reply;
use command::number::X3;
use pad::parameter::Values;
use pad::response::{response_at, response_length};
use telnet::code::{IAC, SB, SE};

impl Reply<'_> {
    // The code, and each parameter with its value.
    #[tactic(auto, using(crate::proofs::WriteLaws::doubling))]
    fn put_parameters(&mut self, values: Values)
        ensures { Puts self.old (doubled_pieces (response_of values)) self.new }
    {
        for i in 0..response_length(values) {
            self.put_doubled(response_at(values, i));
        }
    }

    // IAC SB 30 .. IAC SE
    pub fn respond(&mut self, values: Values)
        ensures { Puts self.old (message_pieces x3_option (response_of values)) self.new }
    {
        self.put_bytes(&[IAC, SB, X3]);
        self.put_parameters(values);
        self.put_bytes(&[IAC, SE]);
    }
}
