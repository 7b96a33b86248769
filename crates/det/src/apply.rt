// A decision is applied: the reply is written from the characters and marks as they are, then the characters change, then the attribute
// bytes, then the marks.
ghost use Rattle.std.specs.Prelude.{◌≡◌, if◌then◌else◌};
ghost use Rattle.rules.specs.Effect.{changed_all, cleared, marks_after};
ghost use Rattle.command.specs.Frame.{lent, seen};
ghost use Rattle.decide.specs.Decision.{edited, attrs_of, meant};
ghost use Rattle.decide.specs.Inner.Decision.{changes_of, marking_of};
ghost use Rattle.reply.specs.Pieces.{say_pieces};
ghost use Rattle.reply.specs.Written.{Puts};
ghost use Rattle.reply.specs.Inner.Reply.{Sayable};
ghost use Rattle.text.specs.Text.{Changes};
ghost use Rattle.text.specs.Canvas.{shown, Draws};
ghost use Rattle.det.specs.Inner.Apply.{Applies};

use decide::decision::{Decision, Edit, Fill, Say};
use edit::range::{erase, fill, shift_range};
use reply::{Reply, Screen};
use rules::{Edition, Frame};
use text::canvas::Canvas;
use text::data::set_cell;

// A change other than REPEAT.
#[tactic(auto, unfolding(rules::specs::Effect::changed, rules::specs::Effect::changed_all))]
fn change_cells(edit: Edit, chars: &mut [u8], attrs: &[u8])
    ensures { chars.new ≡ changed_all chars.old attrs.now (changes_of edit) }
{
    match edit {
        Edit::Nothing | Edit::Repeat { .. } => {}
        Edit::Put { cell, byte } => set_cell(chars, cell, byte),
        Edit::Erase {
            suppressed,
            from,
            end,
        } => erase(suppressed, chars, attrs, from, end),
        Edit::Shift {
            shift,
            from,
            end,
            by,
        } => shift_range(chars, from, end, shift, by),
    }
}

// 37: a host character so many times.
#[tactic(auto, using(crate::proofs::ApplyLaws::repeating_end))]
fn repeat(canvas: &mut Canvas<'_>, count: u8, byte: u8)
    ensures { Draws (edited (shown canvas.old) (Edit.Repeat count byte)) canvas.old canvas.new }
{
    for _done in 0..count {
        canvas.put_character(byte);
    }
}

// Of a frame, REPEAT moves the cursor as it writes.
#[tactic(auto, using(crate::proofs::ApplyLaws::draws_once))]
pub(crate) fn change_chars(canvas: &mut Canvas<'_>, edit: Edit)
    ensures { Draws (edited (shown canvas.old) edit) canvas.old canvas.new }
{
    let Edit::Repeat { count, byte } = edit else {
        return change_cells(edit, canvas.chars, canvas.attrs);
    };
    repeat(canvas, count, byte);
}

fn format_attrs(format: Option<Fill>, attrs: &mut [u8])
    ensures { attrs.new ≡ attrs_of format attrs.old }
{
    if let Some(Fill { from, end, attr }) = format {
        fill(attrs, from, end, attr);
    }
}

// A typed character and a shift mark the cells that they write.
#[tactic(auto, using(edit::proofs::EditLaws::filled_one), unfolding(rules::specs::Effect::marks_after))]
fn mark_edited(edit: Edit, marks: &mut [u8])
    ensures { marks.new ≡ marks_after marks.old (marking_of edit) }
{
    match edit {
        Edit::Put { cell, .. } => set_cell(marks, cell, 1),
        Edit::Shift { from, end, .. } => fill(marks, from, end, 1),
        _ => {}
    }
}

// All marks are cleared, or those of an edit set.
#[tactic(auto, using(edit::proofs::EditLaws::all_zeros), unfolding(rules::specs::Effect::marks_after))]
pub(crate) fn mark(clear: bool, edit: Edit, marks: &mut [u8])
    ensures { marks.new ≡ marks_after marks.old (if clear then cleared else marking_of edit) }
{
    if clear {
        fill(marks, 0, marks.len(), 0);
    } else {
        mark_edited(edit, marks);
    }
}

// Most decisions say nothing and change no character: those take no call, and no copy of what a call is given.
#[tactic(auto, using(reply::proofs::WriteLaws::puts_none))]
fn say_any(edition: Edition, say: Say, screen: Screen<'_>, reply: &mut Reply<'_>)
    ensures { Puts reply.old
        (say_pieces edition screen.entry.chars.now screen.entry.attrs.now screen.entry.marks.now say) reply.new }
{
    match say {
        Say::Silent => {}
        _ => reply.say(edition, say, screen),
    }
}

fn change_any(frame: Frame, edit: Edit, chars: &mut [u8], attrs: &[u8]) -> Frame
    ensures { Changes (edited (seen frame attrs.now) edit) chars.old attrs.now result chars.new }
{
    if let Edit::Nothing = edit {
        return frame;
    }
    let mut canvas = Canvas {
        frame,
        chars,
        attrs,
    };
    change_chars(&mut canvas, edit);
    canvas.frame
}

pub(crate) fn apply(
    decision: Decision,
    chars: &mut [u8],
    attrs: &mut [u8],
    marks: &mut [u8],
    reply: &mut Reply<'_>,
) -> Frame
    requires { Sayable decision.frame.edition decision.say (lent chars.old attrs.old marks.old) reply.old.buffer.now reply.old.at }
    ensures { Applies (meant attrs.old decision)
        (lent chars.old attrs.old marks.old) reply.old
        result (lent chars.new attrs.new marks.new) reply.new }
{
    let Decision {
        frame: decided,
        edit,
        say,
        format,
        clear,
    } = decision;
    let screen = Screen {
        chars,
        attrs,
        marks,
    };
    say_any(decided.edition, say, screen, reply);
    let frame = change_any(decided, edit, chars, attrs);
    format_attrs(format, attrs);
    mark(clear, edit, marks);
    frame
}
