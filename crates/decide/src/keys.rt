// One key: what it means, which refusal it draws, what it does.
ghost use Rattle.std.specs.Prelude.{◌≡◌};
ghost use Rattle.rules.specs.Key.{key_of, key_tests, pressed};
ghost use Rattle.rules.specs.Refusal.{verdict};
ghost use Rattle.command.specs.Frame.{seen};
ghost use Rattle.decide.specs.Decision.{Decides, where_fits};
ghost use Rattle.decide.specs.Writing.{pressed_if_taken};
ghost use Rattle.decide.specs.Inner.Writing.{fate_refusal};

use crate::decision::{Decision, Edit, Say};
use crate::text::{Fate, Writer, judge_character, write};
use crate::view::View;
use command::character::is_printable;
use command::frame::{cursor_guarded, moved};
use command::sent::{self, Sent};
use edit::range::Shift;
use rules::{Area, Destination, Frame, Key, Refusal};

// 128 to 143 are the function keys, numbered from 1.
#[tactic(auto, unfolding(rules::specs::Key::key_of))]
pub fn key_of(key: u8) -> Key
    ensures { result ≡ key_of key }
{
    match key {
        _ if is_printable(key) => Key::Typed(key),
        8 => Key::Back,
        9 => Key::Tab,
        13 => Key::Send,
        127 => Key::Delete,
        128..=143 => Key::Function(key - 127),
        _ => Key::Meaningless,
    }
}

// The refusal of a character that the operator types.
fn refuse_typed(fate: Fate) -> Result<(), Refusal>
    ensures { result ≡ fate_refusal fate }
{
    match fate {
        Fate::Written | Fate::Dropped => Ok(()),
        Fate::RefusedByGuard => Err(Refusal::Guarded),
        Fate::RefusedByClass => Err(Refusal::WrongClass),
    }
}

// Refusals 9, 8, 6 and 7.
#[tactic(auto, using(crate::proofs::WriteLaws::refused_by_fate), unfolding(rules::specs::Key::needs_of, rules::specs::Refusal::verdict, rules::specs::Key::key_tests))]
pub fn refuse_pressed(frame: Frame, attrs: &[u8], key: Key) -> Result<(), Refusal>
    ensures { result ≡ verdict (key_tests (seen frame attrs.now) key) }
{
    match key {
        Key::Typed(byte) => refuse_typed(judge_character(frame, attrs, Writer::Operator, byte)),
        Key::Back | Key::Tab => Ok(()),
        Key::Send | Key::Function(_) if !frame.det => Err(Refusal::DetOff),
        Key::Send | Key::Function(_) => Ok(()),
        Key::Delete if cursor_guarded(frame, attrs) => Err(Refusal::Guarded),
        Key::Delete => Ok(()),
        Key::Meaningless => Err(Refusal::NoMeaning),
    }
}

impl View<'_> {
    // A character that is not refused is written at the cursor.
    #[tactic(auto, using(crate::proofs::WriteLaws::typed), unfolding(rules::specs::Key::pressed))]
    fn type_in(&self, byte: u8) -> Decision
        requires { verdict (key_tests self.now (Key.Typed byte)) ≡ Ok tt }
        ensures { Decides self.now result (λ v. pressed v (Key.Typed byte)) }
    {
        let writing = write(self.frame, self.attrs, Writer::Operator, byte);
        Decision::editing(
            moved(self.frame, writing.cursor),
            Edit::Put {
                cell: self.cursor_cell(),
                byte,
            },
        )
    }

    // What a key does that is not refused.
    #[tactic(auto, unfolding(rules::specs::Key::pressed))]
    fn press_taken(&self, key: Key) -> Decision
        requires { verdict (key_tests self.now key) ≡ Ok tt }
        ensures { Decides self.now result (λ v. pressed v key) }
    {
        match key {
            Key::Typed(byte) => self.type_in(byte),
            Key::Back => Decision::quiet(self.sent_to(Destination::PreviousOpen)),
            Key::Tab => Decision::quiet(self.sent_to(Destination::NextField)),
            Key::Send => self.transmit(Area::Unprotected),
            Key::Delete => self.char_shift(Shift::Deletion),
            Key::Function(number) => Decision::saying(
                self.frame,
                Say::Two {
                    code: sent::code(self.frame.edition, Sent::FunctionKey),
                    a: number,
                },
            ),
            Key::Meaningless => Decision::quiet(self.frame),
        }
    }

    // What a key does: nothing where it is refused.
    fn press(&self, key: Key) -> Decision
        ensures { Decides self.now result (λ v. pressed_if_taken v key) }
    {
        match refuse_pressed(self.frame, self.attrs, key) {
            Ok(()) => self.press_taken(key),
            Err(_) => Decision::quiet(self.frame),
        }
    }
}

// The same of any frame: nothing is done where the cursor is off the screen or the attribute bytes are not the screen's.
pub fn press(frame: Frame, attrs: &[u8], key: Key) -> Decision
    ensures { Decides (seen frame attrs.now) result (where_fits (λ v. pressed_if_taken v key)) }
{
    match View::new(frame, attrs) {
        Some(view) => view.press(key),
        None => Decision::quiet(frame),
    }
}
