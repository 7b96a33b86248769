// Changes of the screen: erasures, 29 to 35, and the shifts, 13 to 16.
ghost use Rattle.std.specs.Prelude.{◌≡◌};
ghost use Rattle.rules.specs.Subcommand.{erasure, cursor_span_end, shifting, line_shifting};
ghost use Rattle.decide.specs.declared.decision.Say.{Say};
ghost use Rattle.decide.specs.Decision.{Decides};
ghost use Rattle.decide.specs.Inner.Decision.{decision};

use crate::decision::{Decision, Edit, Fill};
use crate::view::View;
use edit::range::Shift;
use rules::{Area, Destination};
use screen::cell::{line_end, line_start};
use screen::field::{field_end, field_start, some_guarded, span_end};

impl View<'_> {
    // Spaces in the cells of a range that are not guarded.
    fn erase_range(&self, from: usize, end: usize) -> Decision
        ensures { result ≡ decision self.now.frame (Edit.Erase self.now.frame.suppressed from end) Say.Silent }
    {
        let suppressed = self.frame.suppressed;
        Decision::editing(
            self.frame,
            Edit::Erase {
                suppressed,
                from,
                end,
            },
        )
    }

    // 29: all spaces, attributes 0, marks 0, cursor (0,0).
    #[tactic(auto, using(edit::proofs::EditLaws::all_zeros), unfolding(rules::specs::Subcommand::erasure))]
    fn erase_screen(&self) -> Decision
        ensures { Decides self.now result (λ v. erasure v Area.WholeScreen) }
    {
        let end = self.attrs.len();
        Decision {
            edit: Edit::Erase {
                suppressed: true,
                from: 0,
                end,
            },
            format: Some(Fill {
                from: 0,
                end,
                attr: 0,
            }),
            clear: true,
            ..Decision::quiet(self.sent_to(Destination::Corner))
        }
    }

    // 35: spaces in all unprotected cells, marks 0, and the cursor as after 21.
    #[tactic(auto, unfolding(rules::specs::Subcommand::erasure))]
    fn erase_unprotected(&self) -> Decision
        ensures { Decides self.now result (λ v. erasure v Area.Unprotected) }
    {
        Decision {
            edit: Edit::Erase {
                suppressed: false,
                from: 0,
                end: self.attrs.len(),
            },
            clear: true,
            ..Decision::quiet(self.sent_to(Destination::FirstField))
        }
    }

    #[tactic(auto, unfolding(rules::specs::Subcommand::erasure))]
    pub(crate) fn erase(&self, area: Area) -> Decision
        ensures { Decides self.now result (λ v. erasure v area) }
    {
        let attrs = self.attrs;
        let cell = self.cursor_cell();
        let width = self.frame.width;
        let y = self.frame.cursor.y;
        match area {
            Area::WholeScreen => self.erase_screen(),
            Area::Unprotected => self.erase_unprotected(),
            Area::WholeLine => self.erase_range(line_start(width, y), line_end(width, y)),
            Area::WholeField => self.erase_range(field_start(attrs, cell), field_end(attrs, cell)),
            Area::RestOfScreen => self.erase_range(cell, attrs.len()),
            Area::RestOfLine => self.erase_range(cell, line_end(width, y)),
            Area::RestOfField => self.erase_range(cell, field_end(attrs, cell)),
        }
    }

    // The end of the cursor's edit span.
    fn cursor_span_end(&self) -> usize
        ensures { result ≡ cursor_span_end self.now }
    {
        let frame = self.frame;
        let end = line_end(frame.width, frame.cursor.y);
        span_end(frame.suppressed, self.attrs, self.cursor_cell(), end)
    }

    // 15, 16: nothing on a guarded cell.
    pub(crate) fn char_shift(&self, shift: Shift) -> Decision
        ensures { Decides self.now result (λ v. shifting v shift) }
    {
        if self.cursor_guarded() {
            return Decision::quiet(self.frame);
        }
        Decision::editing(
            self.frame,
            Edit::Shift {
                shift,
                from: self.cursor_cell(),
                end: self.cursor_span_end(),
                by: 1,
            },
        )
    }

    // 13, 14: nothing where a cell from the start of the line on is guarded.
    pub(crate) fn line_shift(&self, shift: Shift) -> Decision
        ensures { Decides self.now result (λ v. line_shifting v shift) }
    {
        let frame = self.frame;
        let from = line_start(frame.width, frame.cursor.y);
        if some_guarded(frame.suppressed, self.attrs, from) {
            return Decision::quiet(frame);
        }
        Decision::editing(
            frame,
            Edit::Shift {
                shift,
                from,
                end: self.attrs.len(),
                by: frame.width as usize,
            },
        )
    }
}
