// Host bytes, and one key. They ask nothing of their caller.
ghost use Rattle.std.specs.Prelude.{◌≡◌, true, false, List, ℕ};
ghost use Rattle.rules.specs.Session.{screen, state};
ghost use Rattle.rules.specs.Refusal.{verdict};
ghost use Rattle.rules.specs.Pad.{takes_key};
ghost use Rattle.rules.specs.Operation.{outcome, host_bytes, press_tests, key_refusal, one_key};
ghost use Rattle.command.specs.Frame.{lent};
ghost use Rattle.det.specs.Inner.Take.{Accepts, host_taken, key_taken};

use crate::apply::{change_chars, mark};
use crate::start::{Start, in_message};
use crate::take::take_turn;
use admit::open::refused;
use admit::refuse::{refuse, reply_room};
use decide::keys::{key_of, press, refuse_pressed};
use local::message::take_byte;
use local::told::{ends_other, tell};
use local::typed::{echo_key, refuse_line, send_line, takes_key, type_key};
use pad::host::prints_lf;
use pad::message::idle;
use reply::{Reply, Screen};
use rules::{Answer, Session, Verdict};
use text::canvas::Canvas;

// Host bytes that are not refused: taken from the front while there are any and the reply buffer has room for one more reply.
fn take_all(
    session: Session,
    input: &[u8],
    chars: &mut [u8],
    attrs: &mut [u8],
    marks: &mut [u8],
    reply: &mut [u8],
) -> Answer
    requires { Accepts (state session (lent chars.old attrs.old marks.old)) reply.old 0 }
    ensures { outcome result (lent chars.new attrs.new marks.new) reply.new
        ≡ host_taken (state session (lent chars.old attrs.old marks.old)) reply.old input.now }
{
    let room = reply_room(session.frame);
    let mut now = session;
    let mut from = 0;
    let mut reply = Reply {
        buffer: reply,
        at: 0,
    };
    let mut lf = prints_lf(session.pad.values);
    while from < input.len() {
        if reply.room() < room {
            break;
        }
        if in_message(now.reader.phase) {
            let one = take_byte(now.frame, now.reader, now.pad, input[from], &mut reply);
            from += 1;
            now.reader = one.reader;
            now.pad = one.pad;
            lf = prints_lf(now.pad.values);
            continue;
        }
        let start = Start {
            input,
            from,
            frame: &now.frame,
            reader: &now.reader,
            lf,
        };
        let turn = take_turn(&start, chars, attrs, marks, &mut reply);
        from = turn.end;
        now.reader = turn.reader;
        if ends_other(turn.event) {
            now.pad.message = idle();
        } else {
            tell(now.frame, &mut now.pad, turn.event);
            lf = prints_lf(now.pad.values);
        }
        now.frame = turn.frame;
    }
    Answer {
        session: now,
        verdict: Ok(()),
        taken: from,
        written: reply.at,
    }
}

// The refusals of the key itself: 10 where the edit line takes it, else 9, 8, 6 and 7.
#[tactic(auto, using(crate::proofs::KeyLaws::line_refusal, crate::proofs::KeyLaws::meaning_refusal))]
fn refuse_press(session: Session, code: u8, attrs: &[u8]) -> Verdict
    ensures { (chars marks : List ℕ)
        → result ≡ verdict (press_tests (state session (screen chars attrs.now marks)) code) }
{
    if takes_key(session.frame, code) {
        refuse_line(session.pad, code)
    } else {
        refuse_pressed(session.frame, attrs, key_of(code))
    }
}

// Refusals 1 to 5 and 11, then the key's own.
fn refuse_key(
    session: Session,
    code: u8,
    chars: &[u8],
    attrs: &[u8],
    marks: &[u8],
    reply: &[u8],
) -> Verdict
    ensures { result ≡ key_refusal (state session (lent chars.now attrs.now marks.now)) reply.now code }
{
    refuse(session, chars, attrs, marks, reply)?;
    refuse_press(session, code, attrs)
}

// A key that is not refused and that the edit line does not take.
fn take_meaning(
    session: Session,
    code: u8,
    chars: &mut [u8],
    attrs: &[u8],
    marks: &mut [u8],
    reply: &mut [u8],
) -> Answer
    requires not_refused { key_refusal (state session (lent chars.old attrs.now marks.old)) reply.old code ≡ Ok tt }
    requires line_leaves { takes_key session.frame code ≡ false }
    ensures { outcome result (lent chars.new attrs.now marks.new) reply.new
        ≡ key_taken (state session (lent chars.old attrs.now marks.old)) reply.old code }
{
    let decision = press(session.frame, attrs, key_of(code));
    let decided = decision.frame;
    let mut reply = Reply {
        buffer: reply,
        at: 0,
    };
    let screen = Screen {
        chars,
        attrs,
        marks,
    };
    reply.say(decided.edition, decision.say, screen);
    let mut canvas = Canvas {
        frame: decided,
        chars,
        attrs,
    };
    change_chars(&mut canvas, decision.edit);
    let frame = canvas.frame;
    mark(decision.clear, decision.edit, marks);
    Answer {
        session: Session { frame, ..session },
        verdict: Ok(()),
        taken: 1,
        written: reply.at,
    }
}

// A key that is not refused and that the edit line takes.
fn take_line(
    session: Session,
    code: u8,
    chars: &mut [u8],
    attrs: &[u8],
    marks: &[u8],
    reply: &mut [u8],
) -> Answer
    requires not_refused { key_refusal (state session (lent chars.old attrs.now marks.now)) reply.old code ≡ Ok tt }
    requires line_takes { takes_key session.frame code ≡ true }
    ensures { outcome result (lent chars.new attrs.now marks.now) reply.new
        ≡ key_taken (state session (lent chars.old attrs.now marks.now)) reply.old code }
{
    let pad = session.pad;
    let written = send_line(pad, code, reply);
    let mut canvas = Canvas {
        frame: session.frame,
        chars,
        attrs,
    };
    echo_key(&mut canvas, pad, code);
    Answer {
        session: Session {
            frame: canvas.frame,
            pad: type_key(pad, code),
            ..session
        },
        verdict: Ok(()),
        taken: 1,
        written,
    }
}

// Bytes from the host. The answer counts those taken from the input's front, and the reply bytes.
#[tactic(auto, using(admit::proofs::SettleLaws::settled_done), unfolding(rules::specs::Operation::host_bytes))]
pub fn host_bytes(
    session: Session,
    input: &[u8],
    chars: &mut [u8],
    attrs: &mut [u8],
    marks: &mut [u8],
    reply: &mut [u8],
) -> Answer
    ensures { outcome result (lent chars.new attrs.new marks.new) reply.new
        ≡ host_bytes (state session (lent chars.old attrs.old marks.old)) reply.old input.now }
{
    if let Err(why) = refuse(session, chars, attrs, marks, reply) {
        return refused(session, why);
    }
    take_all(session, input, chars, attrs, marks, reply)
}

// One key of the operator.
#[tactic(auto, using(admit::proofs::SettleLaws::settled_done), unfolding(rules::specs::Operation::one_key))]
pub fn key(
    session: Session,
    code: u8,
    chars: &mut [u8],
    attrs: &[u8],
    marks: &mut [u8],
    reply: &mut [u8],
) -> Answer
    ensures { outcome result (lent chars.new attrs.now marks.new) reply.new
        ≡ one_key (state session (lent chars.old attrs.now marks.old)) reply.old code }
{
    if let Err(why) = refuse_key(session, code, chars, attrs, marks, reply) {
        return refused(session, why);
    }
    if takes_key(session.frame, code) {
        take_line(session, code, chars, attrs, marks, reply)
    } else {
        take_meaning(session, code, chars, attrs, marks, reply)
    }
}
