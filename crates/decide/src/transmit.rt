// Transmissions, 20 to 27: prefaces, and the texts of ranges of cells.
ghost use Rattle.std.specs.Prelude.{◌≡◌, ◌≤◌};
ghost use Rattle.rules.specs.Session.{cursor_cell};
ghost use Rattle.rules.specs.Subcommand.{field_from, transmitted, transmitted_modified};
ghost use Rattle.decide.specs.Decision.{Decides};
ghost use Rattle.decide.specs.Inner.Decision.{decision};

use crate::cursor::start_of_line;
use crate::decision::{Decision, Edit, Say};
use crate::view::View;
use rules::{Area, Destination, Frame};
use screen::cell::{Place, line_end, line_start};
use screen::field::{field_end, field_start};

// The text of a range, prefaced by a place. The frame is the one afterwards.
fn send(frame: Frame, place: Place, from: usize, end: usize) -> Decision
    ensures { result ≡ decision frame Edit.Nothing (Say.Text place from end) }
{
    Decision::saying(frame, Say::Text { place, from, end })
}

impl View<'_> {
    // 20: the cursor goes to the corner, which is also the first cell sent.
    #[tactic(auto, unfolding(rules::specs::Cursor::destination, rules::specs::Subcommand::transmitted))]
    fn send_screen(&self) -> Decision
        ensures { Decides self.now result (λ v. transmitted v Area.WholeScreen) }
    {
        let next = self.sent_to(Destination::Corner);
        send(next, next.cursor, 0, self.attrs.len())
    }

    // 22: the cursor goes to the start of the next line.
    #[tactic(auto, unfolding(rules::specs::Cursor::destination, rules::specs::Subcommand::transmitted))]
    fn send_line(&self) -> Decision
        ensures { Decides self.now result (λ v. transmitted v Area.WholeLine) }
    {
        let frame = self.frame;
        let y = frame.cursor.y;
        send(
            self.sent_to(Destination::NextLine),
            start_of_line(frame),
            line_start(frame.width, y),
            line_end(frame.width, y),
        )
    }

    // 21: every unprotected field, prefaced by the first one's place, where the cursor goes.
    #[tactic(auto, unfolding(rules::specs::Subcommand::transmitted))]
    fn send_unprotected(&self) -> Decision
        ensures { Decides self.now result (λ v. transmitted v Area.Unprotected) }
    {
        let next = self.sent_to(Destination::FirstField);
        Decision::saying(next, Say::Fields(next.cursor))
    }

    // 27 (request (v)): every unprotected field with a marked cell. The marks are read when the reply is written, and are then cleared.
    pub(crate) fn send_modified(&self) -> Decision
        ensures { Decides self.now result (λ v. transmitted_modified v) }
    {
        Decision {
            say: Say::Modified {
                width: self.frame.width,
            },
            clear: true,
            ..Decision::quiet(self.sent_to(Destination::FirstField))
        }
    }

    // 23, 26: the cursor's field from a cell on; on a guarded cell nothing follows the preface.
    #[tactic(auto, using(screen::proofs::FieldLaws::end_le, crate::proofs::ObeyLaws::field_after))]
    fn send_field(&self, from: usize) -> Decision
        requires up_to_cursor { from ≤ cursor_cell self.now }
        ensures { Decides self.now result (λ v. field_from v from) }
    {
        let frame = self.frame;
        if self.cursor_guarded() {
            return Decision::saying(frame, Say::Preface(frame.cursor));
        }
        let end = field_end(self.attrs, self.cursor_cell());
        send(frame, self.place_on(from), from, end)
    }

    #[tactic(auto, using(crate::proofs::ObeyLaws::sending), unfolding(rules::specs::Subcommand::transmitted))]
    pub(crate) fn transmit(&self, area: Area) -> Decision
        ensures { Decides self.now result (λ v. transmitted v area) }
    {
        let frame = self.frame;
        let cell = self.cursor_cell();
        match area {
            Area::WholeScreen => self.send_screen(),
            Area::Unprotected => self.send_unprotected(),
            Area::WholeLine => self.send_line(),
            Area::WholeField => self.send_field(field_start(self.attrs, cell)),
            Area::RestOfScreen => send(frame, frame.cursor, cell, self.attrs.len()),
            Area::RestOfLine => send(
                frame,
                frame.cursor,
                cell,
                line_end(frame.width, frame.cursor.y),
            ),
            Area::RestOfField => self.send_field(cell),
        }
    }
}
