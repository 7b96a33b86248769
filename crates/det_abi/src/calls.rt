// The three operations over numbers and byte slices; a caller in C passes a slice as a pointer and a length. They ask nothing of
// their caller, and return 0 where the call is taken, the refusal's number where the rules refuse it, and 255 where the bytes are
// no session.
ghost use Rattle.std.specs.Prelude.{◌≡◌, [], length};
ghost use Rattle.rules.specs.Refusal.{told_number};
ghost use Rattle.layout.specs.Layout.{session_length, encoded};
ghost use Rattle.command.specs.Frame.{lent};
ghost use Rattle.det_abi.specs.Calls.{result_of, open_call, host_call, key_call, key_byte, Gives};

use admit::number::told_number;
use admit::open::open;
use det::operation::{host_bytes, key};
use layout::{SESSION_LENGTH, decode, encode, is_session};
use rules::Answer;

const NO_SESSION: u8 = 255;

// Writes the answer's session, and returns its number.
#[tactic(auto, using(layout::proofs::LayoutLaws::stored_there))]
fn tell(answer: Answer, session: &mut [u8]) -> u8
    requires { length session.old ≡ session_length }
    ensures number { result ≡ told_number answer.verdict }
    ensures session { session.new ≡ encoded answer.session }
{
    encode(answer.session, session);
    told_number(answer.verdict)
}

// The same, and the answer's two counts.
fn give(answer: Answer, session: &mut [u8], taken: &mut usize, written: &mut usize) -> u8
    requires { length session.old ≡ session_length }
    ensures { Gives answer result session.new taken.new written.new }
{
    *taken = answer.taken;
    *written = answer.written;
    tell(answer, session)
}

// The bytes are no session: nothing is taken, nothing written.
fn no_session(taken: &mut usize, written: &mut usize) -> u8
    ensures { (result ≡ 255) × (taken.new ≡ 0) × (written.new ≡ 0) }
{
    *taken = 0;
    *written = 0;
    NO_SESSION
}

// The byte that stands for a key. A number that is no byte has no meaning, and neither has 255.
fn key_byte(code: u32) -> u8
    ensures { result ≡ key_byte code }
{
    u8::try_from(code).unwrap_or(255)
}

// Open, in the edition of this number. The session's place is of a session's length, whatever stands there.
#[unsafe(no_mangle)]
#[tactic(auto, using(crate::proofs::CallLaws::open_none))]
pub extern "C" fn det_open(
    width: usize,
    height: usize,
    edition: usize,
    chars: &mut [u8],
    attrs: &mut [u8],
    marks: &mut [u8],
    session: &mut [u8],
) -> u8
    ensures { result_of result session.new 0 0 (lent chars.new attrs.new marks.new) []
        ≡ open_call width height edition session.old (lent chars.old attrs.old marks.old) }
{
    if session.len() != SESSION_LENGTH {
        return NO_SESSION;
    }
    let answer = open(width, height, edition, chars, attrs, marks);
    tell(answer, session)
}

// Host bytes.
#[unsafe(no_mangle)]
#[tactic(auto, using(layout::proofs::LayoutLaws::session_length_lem))]
pub extern "C" fn det_host(
    session: &mut [u8],
    input: &[u8],
    chars: &mut [u8],
    attrs: &mut [u8],
    marks: &mut [u8],
    reply: &mut [u8],
    taken: &mut usize,
    written: &mut usize,
) -> u8
    ensures { result_of result session.new taken.new written.new
        (lent chars.new attrs.new marks.new) reply.new
        ≡ host_call session.old input.now (lent chars.old attrs.old marks.old) reply.old }
{
    if !is_session(session) {
        return no_session(taken, written);
    }
    let answer = host_bytes(decode(session), input, chars, attrs, marks, reply);
    give(answer, session, taken, written)
}

// One key, by its number.
#[unsafe(no_mangle)]
#[tactic(auto, using(layout::proofs::LayoutLaws::session_length_lem))]
pub extern "C" fn det_key(
    session: &mut [u8],
    code: u32,
    chars: &mut [u8],
    attrs: &[u8],
    marks: &mut [u8],
    reply: &mut [u8],
    taken: &mut usize,
    written: &mut usize,
) -> u8
    ensures { result_of result session.new taken.new written.new
        (lent chars.new attrs.now marks.new) reply.new
        ≡ key_call session.old code (lent chars.old attrs.now marks.old) reply.old }
{
    if !is_session(session) {
        return no_session(taken, written);
    }
    let answer = key(decode(session), key_byte(code), chars, attrs, marks, reply);
    give(answer, session, taken, written)
}
