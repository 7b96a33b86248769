// The fields of the screen into the reply, and the separator between each two.
ghost use Rattle.std.specs.Prelude.{◌≡◌, true, false, [], ◌∷◌, ◌++◌, eqb, length};
ghost use Rattle.screen.specs.Fields.{opens_at, first_from};
ghost use Rattle.rules.specs.Number.{field_separator};
ghost use Rattle.rules.specs.Edition.{code_for};
ghost use Rattle.reply.specs.Pieces.{text_piece, separator_pieces, field_pieces};
ghost use Rattle.reply.specs.Written.{Puts};

use crate::single::are_singles;
use crate::{Reply, Screen};
use command::number::DET;
use command::sent::{self, Sent};
use rules::Edition;
use screen::field::field_end;
use screen::scan::{Target, first};
use telnet::code::{IAC, SB, SE};

// The code between each two fields, which is not IAC.
#[derive(Clone, Copy)]
pub(crate) struct Separator {
    pub(crate) code: u8,
    ghost not_iac: { eqb code 255 ≡ false },
}

impl Separator {
    #[tactic(auto, using(rules::proofs::Editions::not_iac))]
    pub(crate) fn of(edition: Edition) -> Separator
        ensures { result.code ≡ code_for edition field_separator }
    {
        Separator {
            code: sent::code(edition, Sent::FieldSeparator),
        }
    }
}

// Where the first unprotected field from the cell on starts; none, the screen's end.
#[tactic(auto, unfolding(screen::specs::Scans::is_target))]
pub(crate) fn field_from(attrs: &[u8], cell: usize) -> usize
    ensures { result ≡ first_from (opens_at attrs.now) attrs.now cell (length attrs.now) }
{
    first(attrs, Target::UnprotectedStart, cell, attrs.len())
}

impl Reply<'_> {
    // A separator before a field, not before the first. Where all of it fits, it goes by one copy.
    #[tactic(auto, using(crate::proofs::WriteLaws::puts_none))]
    fn put_separator(&mut self, separator: Separator, first: bool)
        ensures { Puts self.old (separator_pieces separator.code first) self.new }
    {
        if first {
            return;
        }
        if 6 <= self.room() {
            return self.put_bytes(&[IAC, SB, DET, separator.code, IAC, SE]);
        }
        self.put_message(DET, &[separator.code]);
    }

    // The text of a field, behind a separator.
    fn put_field(
        &mut self,
        chars: &[u8],
        cell: usize,
        end: usize,
        separator: Separator,
        first: bool,
    )
        ensures { Puts self.old
            (separator_pieces separator.code first ++ (text_piece cell end chars.now ∷ [])) self.new }
    {
        self.put_separator(separator, first);
        self.put_range(chars, cell, end);
    }

    // Every unprotected field, a separator between each two. A step is a field, or 32 of one cell each.
    #[tactic(auto, using(crate::proofs::WriteLaws::to_further))]
    pub(crate) fn put_fields(&mut self, screen: Screen<'_>, separator: Separator)
        ensures { Puts self.old
            (field_pieces separator.code screen.entry.chars.now screen.entry.attrs.now
            true 0 (length screen.entry.attrs.now)) self.new }
    {
        let attrs = screen.attrs;
        let mut first = true;
        let mut cell = field_from(attrs, 0);
        while cell < attrs.len() {
            if are_singles(self, screen, cell, first) {
                self.put_singles(screen.chars, cell, separator);
                cell += 32;
                continue;
            }
            let end = field_end(attrs, cell);
            self.put_field(screen.chars, cell, end, separator, first);
            first = false;
            cell = field_from(attrs, end);
        }
    }
}
