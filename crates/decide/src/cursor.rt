// Where the cursor goes.
ghost use Rattle.std.specs.Prelude.{◌≡◌, ◌+◌, ◌-◌, ◌%◌, ◌<◌};
ghost use Rattle.screen.specs.Cells.{place, place_of};
ghost use Rattle.rules.specs.Session.{placed, cells};
ghost use Rattle.rules.specs.Command.{place_in};
ghost use Rattle.rules.specs.Cursor.{
  limited,
  skipped_to_line,
  lines_down,
  skipped_to_char,
  one_more,
  line_below,
  next_cell,
  home_cell,
  back_tab_cell,
  first_field_cell,
  next_field_cell,
  previous_open_cell,
  destination,
};
ghost use Rattle.command.specs.Frame.{seen};
ghost use Rattle.command.specs.Inner.Frame.{Fits};

use crate::view::View;
use command::frame::moved;
use command::held::place_parameters;
use rules::{Destination, Frame, Held};
use screen::cell::{Column, Line, Place, place_of};
use screen::next_open::next_open;
use screen::scan::{Target, first, first_around, last};

fn at(x: u8, y: u8) -> Place
    ensures { result ≡ place x y }
{
    Place {
        x: Column(x),
        y: Line(y),
    }
}

// The greatest below the limit stays.
fn one_more(n: u8, limit: u8) -> u8
    ensures { result ≡ one_more n limit }
{
    if n < limit.saturating_sub(1) {
        n + 1
    } else {
        n
    }
}

fn line_below(frame: Frame) -> u8
    ensures { result ≡ line_below frame }
{
    one_more(frame.cursor.y.0, frame.height)
}

pub(crate) fn start_of_line(frame: Frame) -> Place
    ensures { result ≡ place 0 frame.cursor.y.0 }
{
    at(0, frame.cursor.y.0)
}

pub(crate) fn down(frame: Frame) -> Place
    ensures { result ≡ place frame.cursor.x.0 (line_below frame) }
{
    at(frame.cursor.x.0, line_below(frame))
}

pub(crate) fn left(frame: Frame) -> Place
    ensures { result ≡ place (frame.cursor.x.0 - 1) frame.cursor.y.0 }
{
    at(frame.cursor.x.0.saturating_sub(1), frame.cursor.y.0)
}

// At the last cell the cursor stays.
#[tactic(auto, unfolding(rules::specs::Cursor::next_cell))]
pub(crate) fn next_cell(frame: Frame) -> Place
    ensures { result ≡ next_cell frame }
{
    let x = frame.cursor.x.0;
    let y = frame.cursor.y.0;
    if x < frame.width.saturating_sub(1) {
        return at(x + 1, y);
    }
    if y < frame.height.saturating_sub(1) {
        return at(0, y + 1);
    }
    frame.cursor
}

// After a typed character.
#[tactic(auto, using(crate::proofs::WriteLaws::next_open_is))]
pub(crate) fn next_open_place(frame: Frame, attrs: &[u8]) -> Place
    requires { Fits (seen frame attrs.now) }
    ensures { result ≡ destination (seen frame attrs.now) Destination.NextOpen }
{
    next_open(
        frame.suppressed,
        attrs,
        frame.width,
        frame.height,
        frame.cursor,
    )
}

impl View<'_> {
    // The place of a cell of the screen.
    #[tactic(auto, using(screen::proofs::CellLaws::place_whole))]
    pub(crate) fn place_on(&self, cell: usize) -> Place
        requires { cell < cells self.now.frame }
        ensures { result ≡ place_of self.now.frame.width cell }
    {
        place_of(self.frame.width, cell)
    }

    // 5: a place that is not on the screen is limited to it.
    pub(crate) fn limited(&self, held: Held) -> Frame
        ensures { result ≡ placed self.now.frame (limited self.now.frame (place_in held)) }
    {
        let frame = self.frame;
        let place = place_parameters(held);
        moved(
            frame,
            at(
                place.x.0.min(frame.width - 1),
                place.y.0.min(frame.height - 1),
            ),
        )
    }

    // 6: past the last line it goes on from the first.
    pub(crate) fn skipped_to_line(&self, y: u8) -> Frame
        ensures { result ≡ placed self.now.frame (skipped_to_line self.now.frame y) }
    {
        let frame = self.frame;
        moved(frame, at(frame.cursor.x.0, y % frame.height))
    }

    // 7: the lines that a skip past the line's end goes down.
    #[tactic(auto, unfolding(rules::specs::Cursor::lines_down))]
    fn lines_down(&self, x: u8) -> u8
        ensures { result ≡ lines_down self.now.frame x }
    {
        x / self.frame.height
    }

    // So many lines below the cursor's, around the screen.
    fn line_around(&self, down: u8) -> u8
        ensures { result ≡ (self.now.frame.cursor.y.0 + down) % self.now.frame.height }
    {
        let frame = self.frame;
        ((frame.cursor.y.0 as u16 + down as u16) % frame.height as u16) as u8
    }

    // 7: past the line's end both go round.
    #[tactic(auto, unfolding(rules::specs::Cursor::skipped_to_char))]
    pub(crate) fn skipped_to_char(&self, x: u8) -> Frame
        ensures { result ≡ placed self.now.frame (skipped_to_char self.now.frame x) }
    {
        let frame = self.frame;
        if x < frame.width {
            return moved(frame, at(x, frame.cursor.y.0));
        }
        let down = self.lines_down(x);
        moved(frame, at(x % frame.width, self.line_around(down)))
    }

    #[tactic(auto, unfolding(screen::specs::Scans::is_target, rules::specs::Cursor::home_cell))]
    fn home_cell(&self) -> usize
        ensures { result ≡ home_cell self.now }
    {
        if self.frame.suppressed {
            return 0;
        }
        first(self.attrs, Target::Open(false), 0, 0)
    }

    #[tactic(auto, unfolding(screen::specs::Scans::is_target, rules::specs::Cursor::back_tab_cell))]
    fn back_tab_cell(&self) -> usize
        ensures { result ≡ back_tab_cell self.now }
    {
        if self.frame.suppressed {
            return 0;
        }
        last(self.attrs, Target::UnprotectedStart, self.cursor_cell(), 0)
    }

    #[tactic(auto, unfolding(screen::specs::Scans::is_target, rules::specs::Cursor::first_field_cell))]
    fn first_field_cell(&self, none: usize) -> usize
        ensures { result ≡ first_field_cell self.now none }
    {
        first(self.attrs, Target::UnprotectedStart, 0, none)
    }

    #[tactic(auto, unfolding(screen::specs::Scans::is_target, rules::specs::Cursor::first_field_cell, rules::specs::Cursor::next_field_cell))]
    fn next_field_cell(&self) -> usize
        ensures { result ≡ next_field_cell self.now }
    {
        let cell = self.cursor_cell();
        first_around(self.attrs, Target::UnprotectedStart, cell + 1, cell)
    }

    #[tactic(auto, unfolding(screen::specs::Scans::is_target, rules::specs::Cursor::previous_open_cell))]
    fn previous_open_cell(&self) -> usize
        ensures { result ≡ previous_open_cell self.now }
    {
        let cell = self.cursor_cell();
        last(self.attrs, Target::Open(self.frame.suppressed), cell, cell)
    }

    // Any of them.
    #[tactic(auto, using(crate::proofs::ObeyLaws::destinations), unfolding(rules::specs::Cursor::destination))]
    pub(crate) fn destination(&self, to: Destination) -> Place
        ensures { result ≡ destination self.now to }
    {
        let frame = self.frame;
        let x = frame.cursor.x.0;
        let y = frame.cursor.y.0;
        match to {
            Destination::Up => at(x, y.saturating_sub(1)),
            Destination::Down => down(frame),
            Destination::Left => left(frame),
            Destination::Right => at(one_more(x, frame.width), y),
            Destination::Corner => at(0, 0),
            Destination::LineStart => start_of_line(frame),
            Destination::NextLine => at(0, line_below(frame)),
            Destination::NextCell => next_cell(frame),
            Destination::Home => self.place_on(self.home_cell()),
            Destination::ReverseTab => self.place_on(self.back_tab_cell()),
            Destination::FirstField => self.place_on(self.first_field_cell(0)),
            Destination::NextField => self.place_on(self.next_field_cell()),
            Destination::NextOpen => next_open_place(frame, self.attrs),
            Destination::PreviousOpen => self.place_on(self.previous_open_cell()),
        }
    }

    // The frame with the cursor sent there.
    pub(crate) fn sent_to(&self, to: Destination) -> Frame
        ensures { result ≡ placed self.now.frame (destination self.now to) }
    {
        moved(self.frame, self.destination(to))
    }
}
