// What every operation asks of its sizes, session and buffers, in document 01's order.
ghost use Rattle.std.specs.Prelude.{◌≡◌, not, ◌&&◌, ◌||◌, List, ℕ, leb, eqb, length, MatchResult};
ghost use Rattle.rules.specs.Session.{
  sizes_ok,
  cells,
  reply_room,
  x3_cells,
  fresh_frame,
  all_printable,
  all_marks,
  pad_ok,
  session_ok,
  screen,
  state,
};
ghost use Rattle.rules.specs.Edition.{edition_of};
ghost use Rattle.rules.specs.Refusal.{verdict, open_tests, size_tests, state_tests};
ghost use Rattle.rules.specs.Operation.{host_refusal};
ghost use Rattle.command.specs.Frame.{lent};

use crate::edition::named;
use pad::parameter::all_admissible;
use rules::{Edition, Frame, Pad, Refusal, Session, Verdict};
use screen::cell::on_screen;

// M is 1 to 132, N is 1 to 64. The numbers are wide, so that nothing a caller passes is cut off.
fn sizes_ok(m: usize, n: usize) -> bool
    ensures { result ≡ sizes_ok m n }
{
    (1..=132).contains(&m) && (1..=64).contains(&n)
}

// By the least and the greatest character. The loop has one way out, so that the compiler takes sixteen characters at a time.
#[tactic(auto, unfolding(rules::specs::Session::all_printable))]
fn all_printable(chars: &[u8]) -> bool
    ensures { result ≡ all_printable chars.now }
{
    let mut low = 126;
    let mut high = 32;
    for c in chars {
        low = low.min(*c);
        high = high.max(*c);
    }
    32 <= low && high <= 126
}

// Each mark is 0 or 1, by the greatest of them.
#[tactic(auto, unfolding(rules::specs::Session::all_marks))]
fn all_marks(marks: &[u8]) -> bool
    ensures { result ≡ all_marks marks.now }
{
    let mut high = 0;
    for m in marks {
        high = high.max(*m);
    }
    high <= 1
}

// Option 30 is off, or there are cells enough for a full edit line to fit the reply room.
#[tactic(auto, using(screen::proofs::CellLaws::byte_product))]
fn x3_fits(frame: Frame) -> bool
    ensures { result ≡ (not frame.x3 || leb x3_cells (cells frame)) }
{
    !frame.x3 || 37 <= frame.height as usize * frame.width as usize
}

// Every value is admissible, those of the half-read message's copy too, and the edit line is in its range.
#[tactic(auto, unfolding(rules::specs::Session::pad_ok))]
fn pad_ok(pad: Pad) -> bool
    ensures { result ≡ pad_ok pad }
{
    all_admissible(pad.values) && all_admissible(pad.message.copy) && pad.line.is_sound()
}

// The cursor is on the screen, at most six bytes are held, option 30 fits, and the PAD is in its ranges.
#[tactic(auto, unfolding(rules::specs::Session::session_ok))]
fn session_ok(session: Session) -> bool
    ensures { result ≡ session_ok session }
{
    let frame = session.frame;
    on_screen(frame.width, frame.height, frame.cursor)
        && session.reader.held.count <= 6
        && x3_fits(frame)
        && pad_ok(session.pad)
}

// The worst single reply: 9C.
#[tactic(auto, using(screen::proofs::CellLaws::byte_product))]
pub fn reply_room(frame: Frame) -> usize
    ensures { result ≡ reply_room frame }
{
    9 * (frame.height as usize * frame.width as usize)
}

// Each buffer has a byte for each cell.
fn lengths_ok(cells: usize, chars: &[u8], attrs: &[u8], marks: &[u8]) -> bool
    ensures { result ≡ (eqb (length chars.now) cells
        && (eqb (length attrs.now) cells && eqb (length marks.now) cells)) }
{
    chars.len() == cells && attrs.len() == cells && marks.len() == cells
}

// Refusals 1, 12 and 2, all that open has, or the edition that is named.
#[tactic(auto, unfolding(rules::specs::Refusal::verdict, rules::specs::Refusal::open_tests))]
pub(crate) fn refuse_open(
    m: usize,
    n: usize,
    name: usize,
    chars: &[u8],
    attrs: &[u8],
    marks: &[u8],
) -> Result<Edition, Refusal>
    ensures { let told = verdict (open_tests (fresh_frame m n (edition_of name)) name (lent chars.now attrs.now marks.now)) in
        MatchResult result
        (λ edition. (told ≡ Ok tt) × (edition ≡ edition_of name))
        (λ why. told ≡ Err why) }
{
    if !sizes_ok(m, n) {
        return Err(Refusal::Size);
    }
    let Some(edition) = named(name) else {
        return Err(Refusal::UnknownEdition);
    };
    if !lengths_ok(n * m, chars, attrs, marks) {
        return Err(Refusal::BufferLength);
    }
    Ok(edition)
}

// Refusals 1 and 2, of a session.
#[tactic(auto, unfolding(rules::specs::Refusal::verdict, rules::specs::Refusal::size_tests))]
fn refuse_sizes(frame: Frame, chars: &[u8], attrs: &[u8], marks: &[u8]) -> Verdict
    ensures { result ≡ verdict (size_tests frame (lent chars.now attrs.now marks.now)) }
{
    let m = frame.width as usize;
    let n = frame.height as usize;
    if !sizes_ok(m, n) {
        return Err(Refusal::Size);
    }
    if !lengths_ok(n * m, chars, attrs, marks) {
        return Err(Refusal::BufferLength);
    }
    Ok(())
}

// Refusals 3, 4, 11 and 5.
#[tactic(auto, unfolding(rules::specs::Refusal::verdict, rules::specs::Refusal::state_tests))]
fn refuse_state(session: Session, chars: &[u8], marks: &[u8], reply: &[u8]) -> Verdict
    ensures { (attrs : List ℕ)
        → result ≡ verdict (state_tests session (screen chars.now attrs marks.now) reply.now) }
{
    if !all_printable(chars) {
        return Err(Refusal::BadCharacter);
    }
    if !session_ok(session) {
        return Err(Refusal::BadSession);
    }
    if !all_marks(marks) {
        return Err(Refusal::BadMark);
    }
    if reply.len() < reply_room(session.frame) {
        return Err(Refusal::ReplyRoom);
    }
    Ok(())
}

// Refusals 1 to 5 and 11, of host bytes and of a key.
pub fn refuse(session: Session, chars: &[u8], attrs: &[u8], marks: &[u8], reply: &[u8]) -> Verdict
    ensures { result ≡ host_refusal (state session (lent chars.now attrs.now marks.now)) reply.now }
{
    refuse_sizes(session.frame, chars, attrs, marks)?;
    refuse_state(session, chars, marks, reply)
}
