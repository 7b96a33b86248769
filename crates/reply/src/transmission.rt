// Transmissions into the reply: the place of the first cell, then characters.
ghost use Rattle.std.specs.Prelude.{◌≡◌, true, [], ◌∷◌, ◌++◌, length};
ghost use Rattle.rules.specs.Number.{data_transmit, field_separator};
ghost use Rattle.rules.specs.Edition.{code_for};
ghost use Rattle.reply.specs.Pieces.{preface_pieces, text_piece, field_pieces};
ghost use Rattle.reply.specs.Written.{Puts};

use crate::field::Separator;
use crate::{Reply, Screen};
use command::number::DET;
use command::sent::{self, Sent};
use rules::Edition;
use screen::cell::Place;

// DATA TRANSMIT's code: asked for once a reply, not once a field.
pub(crate) fn transmit_code(edition: Edition) -> u8
    ensures { result ≡ code_for edition data_transmit }
{
    sent::code(edition, Sent::DataTransmit)
}

impl Reply<'_> {
    // Before each transmission: the code of DATA TRANSMIT, and the place of its first cell.
    pub(crate) fn put_preface(&mut self, code: u8, place: Place)
        ensures { Puts self.old (preface_pieces code place) self.new }
    {
        self.put_message(DET, &[code, place.x.0, place.y.0]);
    }

    // A range of cells.
    pub(crate) fn put_text(&mut self, code: u8, place: Place, chars: &[u8], from: usize, end: usize)
        ensures { Puts self.old (preface_pieces code place ++ (text_piece from end chars.now ∷ [])) self.new }
    {
        self.put_preface(code, place);
        self.put_range(chars, from, end);
    }

    // 21: the unprotected fields.
    pub(crate) fn put_form(&mut self, edition: Edition, place: Place, screen: Screen<'_>)
        ensures { Puts self.old
            (preface_pieces (code_for edition data_transmit) place
            ++ field_pieces (code_for edition field_separator) screen.entry.chars.now screen.entry.attrs.now
            true 0 (length screen.entry.attrs.now))
            self.new }
    {
        self.put_preface(transmit_code(edition), place);
        self.put_fields(screen, Separator::of(edition));
    }
}
