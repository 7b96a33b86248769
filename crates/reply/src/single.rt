// Fields of one cell each. Where thirty-two of them stand in a row they go without a look at each.
ghost use Rattle.std.specs.Prelude.{◌≡◌, true, false, not, ◌&&◌, [], ◌∷◌, ◌++◌, ◌+◌, ◌≤◌, ◌<◌, eqb, length};
ghost use Rattle.screen.specs.Attributes.{protection};
ghost use Rattle.reply.specs.Pieces.{text_piece, separator_pieces};
ghost use Rattle.reply.specs.Written.{Puts};
ghost use Rattle.reply.specs.Inner.Single.{single_pieces, EachOpens, Singles};

use crate::field::Separator;
use crate::{Reply, Screen};
use command::number::DET;
use screen::protection::Protection;
use telnet::code::{IAC, SB, SE};

// Does an unprotected field start between these attribute bytes?
fn opens_between(before: u8, here: u8) -> bool
    ensures { result ≡ (not (eqb before here) && not (eqb (protection here) 1)) }
{
    (before != here) & (Protection::of(here) != Protection::Protected)
}

// Does one start at each of the thirty-two cells after this one? The loop has one way out, so that the compiler tests many at once.
#[tactic(auto, using(crate::proofs::SingleLaws::open_next, crate::proofs::SingleLaws::open_missed))]
fn each_opens(attrs: &[u8], cell: usize) -> bool
    requires { cell + 33 ≤ length attrs.now }
    ensures opens { result ≡ true → EachOpens attrs.now cell 32 }
    ensures misses { result ≡ false → EachOpens attrs.now cell 32 → ⊥ }
{
    let mut all = true;
    for i in 0..32 {
        all &= opens_between(attrs[cell + i], attrs[cell + i + 1]);
    }
    all
}

// Do thirty-two such fields start at the cell, none of them the first of all, and do they fit?
pub(crate) fn are_singles(reply: &Reply<'_>, screen: Screen<'_>, cell: usize, first: bool) -> bool
    ensures { result ≡ true
        → Singles (length screen.entry.chars.now) screen.entry.attrs.now (length reply.now.buffer.now) cell reply.now.at first }
{
    !first
        && 32 <= screen.chars.len().saturating_sub(cell)
        && 33 <= screen.attrs.len().saturating_sub(cell)
        && 224 <= reply.room()
        && each_opens(screen.attrs, cell)
}

impl Reply<'_> {
    // A separator and one character.
    fn put_single(&mut self, chars: &[u8], cell: usize, separator: Separator)
        requires room { (cell < length chars.now) × (self.old.at + 7 ≤ length self.old.buffer.now) }
        ensures { (self.new.at ≡ self.old.at + 7) × Puts self.old
            (separator_pieces separator.code false ++ (text_piece cell (cell + 1) chars.now ∷ [])) self.new }
    {
        self.put_bytes(&[IAC, SB, DET, separator.code, IAC, SE, chars[cell]]);
    }

    // The thirty-two fields from the cell on.
    #[tactic(auto, using(crate::proofs::SingleLaws::ones_start, crate::proofs::SingleLaws::ones_more))]
    pub(crate) fn put_singles(&mut self, chars: &[u8], cell: usize, separator: Separator)
        requires room { (cell + 32 ≤ length chars.now) × (self.old.at + 224 ≤ length self.old.buffer.now) }
        ensures { Puts self.old (single_pieces separator.code chars.now cell 32) self.new }
    {
        let mut run = Reply {
            buffer: &mut *self.buffer,
            at: self.at,
        };
        for i in 0..32 {
            run.put_single(chars, cell + i, separator);
        }
        self.at = run.at;
    }
}
