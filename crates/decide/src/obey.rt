// What each subcommand does, and which ERROR it draws instead.
ghost use Rattle.std.specs.Prelude.{◌≡◌, [], ◌∷◌};
ghost use Rattle.rules.specs.Number.{suppress_protection, error, fault_number};
ghost use Rattle.rules.specs.Edition.{code_for};
ghost use Rattle.rules.specs.Facility.{own_map};
ghost use Rattle.rules.specs.Effect.{message};
ghost use Rattle.rules.specs.Subcommand.{suppressing, obeyed, subcommand};
ghost use Rattle.command.specs.Frame.{seen};
ghost use Rattle.decide.specs.Decision.{parts_of, Sendable, Decides, where_fits, ended_det};
ghost use Rattle.decide.specs.Inner.Decision.{decision, Judges};

use crate::decision::{Decision, Edit, Fill, Say};
use crate::view::View;
use command::code::command_of;
use command::facility::{own_maps, receive};
use command::fault::{fault_of, format_end};
use command::frame::{switched, with_received};
use command::held::{code, first_parameter, second_parameter};
use command::number::{
    DET, EDIT_FACILITIES, ERASE_FACILITIES, FORMAT_FACILITIES, TRANSMIT_FACILITIES, fault_number,
};
use command::sent::{self, Sent};
use rules::{Code, Command, Edition, Facility, Fault, Frame, Held};
use telnet::code::{DO, DONT, WILL, WONT};

// 38's answer.
fn suppression_answer(edition: Edition, verb: u8) -> Say
    ensures { result ≡ Say.Two (code_for edition suppress_protection) verb }
{
    Say::Two {
        code: sent::code(edition, Sent::SuppressProtection),
        a: verb,
    }
}

// 41, the command and the number.
fn err(frame: Frame, code: u8, fault: Fault) -> Decision
    ensures { result ≡ decision frame Edit.Nothing (Say.Three (code_for frame.edition error) code (fault_number fault)) }
{
    Decision::saying(
        frame,
        Say::Three {
            code: sent::code(frame.edition, Sent::Error),
            a: code,
            b: fault_number(fault),
        },
    )
}

impl View<'_> {
    // The terminal's own map of a class, after its code.
    #[tactic(auto, unfolding(rules::specs::Facility::own_map))]
    fn own_map(&self, facility: Facility) -> Say
        ensures says { parts_of self.now.frame.edition self.now.attrs result ≡ message (own_map self.now.frame.edition facility) ∷ [] }
        ensures sendable { Sendable self.now.attrs result }
    {
        let own = own_maps(self.frame.edition);
        match facility {
            Facility::Editing => Say::Two {
                code: EDIT_FACILITIES,
                a: own.edit,
            },
            Facility::Erasing => Say::Two {
                code: ERASE_FACILITIES,
                a: own.erase,
            },
            Facility::Transmitting => Say::Two {
                code: TRANSMIT_FACILITIES,
                a: own.transmit,
            },
            Facility::Formatting => Say::Three {
                code: FORMAT_FACILITIES,
                a: own.format0,
                b: own.format1,
            },
        }
    }

    // 1 to 4: the map received is kept, and the terminal's own answered.
    #[tactic(auto, unfolding(rules::specs::Subcommand::obeyed))]
    fn facilities(&self, facility: Facility, held: Held) -> Decision
        ensures { Decides self.now result (λ v. obeyed v (Command.Facilities facility) held) }
    {
        let frame = self.frame;
        let maps = receive(
            frame.received,
            facility,
            first_parameter(held),
            second_parameter(held),
        );
        Decision::saying(with_received(frame, maps), self.own_map(facility))
    }

    // 17: answer 18 x y.
    #[tactic(auto, unfolding(rules::specs::Subcommand::obeyed))]
    fn read_cursor(&self, held: Held) -> Decision
        ensures { Decides self.now result (λ v. obeyed v Command.ReadCursor held) }
    {
        let frame = self.frame;
        Decision::saying(
            frame,
            Say::Three {
                code: sent::code(frame.edition, Sent::CursorPosition),
                a: frame.cursor.x.0,
                b: frame.cursor.y.0,
            },
        )
    }

    // 36: the cells from the cursor on take the attribute byte.
    #[tactic(auto, unfolding(rules::specs::Subcommand::obeyed))]
    fn format_data(&self, held: Held) -> Decision
        ensures { Decides self.now result (λ v. obeyed v Command.FormatData held) }
    {
        let frame = self.frame;
        Decision {
            format: Some(Fill {
                from: self.cursor_cell(),
                end: format_end(frame, held),
                attr: first_parameter(held),
            }),
            ..Decision::quiet(frame)
        }
    }

    // 38: suppress, end it, and the two questions.
    #[tactic(auto, unfolding(rules::specs::Subcommand::suppressing))]
    fn suppress(&self, parameter: u8) -> Decision
        ensures { Decides self.now result (λ v. suppressing v parameter) }
    {
        let frame = self.frame;
        let edition = frame.edition;
        match parameter {
            DO if !frame.suppressed => Decision::saying(
                switched(frame, frame.det, true),
                suppression_answer(edition, WILL),
            ),
            DONT if frame.suppressed => Decision::saying(
                switched(frame, frame.det, false),
                suppression_answer(edition, WONT),
            ),
            WILL => Decision::saying(frame, suppression_answer(edition, DONT)),
            _ => Decision::quiet(frame),
        }
    }

    // A command that draws no ERROR.
    #[tactic(auto, using(crate::proofs::ObeyLaws::repeated), unfolding(rules::specs::Subcommand::obeyed))]
    fn obey(&self, command: Command, held: Held) -> Decision
        ensures { Decides self.now result (λ v. obeyed v command held) }
    {
        match command {
            Command::Facilities(facility) => self.facilities(facility, held),
            Command::MoveCursor => Decision::quiet(self.limited(held)),
            Command::SkipToLine => Decision::quiet(self.skipped_to_line(first_parameter(held))),
            Command::SkipToChar => Decision::quiet(self.skipped_to_char(first_parameter(held))),
            Command::Move(to) => Decision::quiet(self.sent_to(to)),
            Command::LineShift(shift) => self.line_shift(shift),
            Command::CharShift(shift) => self.char_shift(shift),
            Command::ReadCursor => self.read_cursor(held),
            Command::Transmit(area) => self.transmit(area),
            Command::TransmitModified => self.send_modified(),
            Command::Erase(area) => self.erase(area),
            Command::FormatData => self.format_data(held),
            Command::Repeat => Decision::editing(
                self.frame,
                Edit::Repeat {
                    count: first_parameter(held),
                    byte: second_parameter(held),
                },
            ),
            Command::SuppressProtection => self.suppress(first_parameter(held)),
            Command::Error => Decision::quiet(self.frame),
        }
    }

    // A known command: obeyed, or an ERROR, which MOVE CURSOR draws after it has limited.
    #[tactic(auto, using(crate::proofs::ObeyLaws::judging), unfolding(rules::specs::Subcommand::judged))]
    fn judge(&self, known: Code, held: Held) -> Decision
        ensures { Judges self.now result known held }
    {
        let frame = self.frame;
        match fault_of(frame, self.attrs, known, held) {
            Ok(()) => self.obey(known.command, held),
            Err(fault) => match fault {
                Fault::OffScreen => err(self.limited(held), code(held), fault),
                _ => err(frame, code(held), fault),
            },
        }
    }

    // A subnegotiation of option 20 that ended while DET is on, with these bytes held.
    #[tactic(auto, using(crate::proofs::ObeyLaws::looked_unknown), unfolding(rules::specs::Subcommand::subcommand))]
    fn obey_held(&self, held: Held) -> Decision
        ensures { Decides self.now result (λ v. subcommand v held) }
    {
        let frame = self.frame;
        if held.count == 0 {
            return err(frame, 0, Fault::TooFewParameters);
        }
        let number = code(held);
        match command_of(frame.edition, number) {
            Some(known) => self.judge(known, held),
            None => err(frame, number, Fault::UnknownCode),
        }
    }

    // A subnegotiation that ended: obeyed if it was option 20's and DET is on.
    #[tactic(auto, unfolding(crate::specs::Decision::ended_det))]
    fn end(&self, held: Held, option: u8) -> Decision
        ensures { Decides self.now result (λ v. ended_det v held option) }
    {
        if option == DET && self.frame.det {
            self.obey_held(held)
        } else {
            Decision::quiet(self.frame)
        }
    }
}

// The same of any frame: nothing is done where the cursor is off the screen or the attribute bytes are not the screen's.
pub fn decide_end(frame: Frame, attrs: &[u8], held: Held, option: u8) -> Decision
    ensures { Decides (seen frame attrs.now) result (where_fits (λ v. ended_det v held option)) }
{
    match View::new(frame, attrs) {
        Some(view) => view.end(held, option),
        None => Decision::quiet(frame),
    }
}
