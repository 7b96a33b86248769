// A session as a byte string: 212 bytes that the caller keeps. The table at the head of specs/Layout.antt says what stands where.
// The three functions ask nothing of their caller.
#![tactic(auto)]

ghost use Rattle.std.specs.Prelude.{◌≡◌};
ghost use Rattle.layout.specs.Layout.{is_session, decoded, stored};

mod number;
mod read;
mod valid;
mod write;

use read::{session_in, session_in_short};
use rules::Session;
use valid::{has_flags, has_places};
use write::put_session;

pub const SESSION_LENGTH: usize = 212;

// The first layout, of 15 bytes, had none; 2 had 206 bytes, 3 had 211.
pub(crate) const VERSION: u8 = 4;

// Are the bytes those of a session?
#[tactic(auto, unfolding(crate::specs::Layout::is_session))]
pub fn is_session(bytes: &[u8]) -> bool
    ensures { result ≡ is_session bytes.now }
{
    let Some(bytes) = bytes.as_array() else {
        return false;
    };
    bytes[0] == VERSION && has_flags(bytes) && has_places(bytes)
}

// The session of these bytes. Whether they are one is for `is_session` to say: this takes any, and reads 0 beyond their end.
#[tactic(auto, using(crate::proofs::CopyLaws::front_same))]
pub fn decode(bytes: &[u8]) -> Session
    ensures { result ≡ decoded bytes.now }
{
    match bytes.first_chunk() {
        Some(whole) => session_in(whole),
        None => session_in_short(bytes),
    }
}

// Writes the session's bytes over those that are there. A place of another length is left as it is.
#[tactic(auto, using(crate::proofs::LayoutLaws::stored_there, crate::proofs::LayoutLaws::stored_elsewhere))]
pub fn encode(session: Session, bytes: &mut [u8])
    ensures { bytes.new ≡ stored session bytes.old }
{
    if let Some(place) = bytes.as_mut_array() {
        put_session(session, place);
    }
}
