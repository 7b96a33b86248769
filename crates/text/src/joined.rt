// An LF right after a CR is passed over while CR LF is printed as CR.
ghost use Rattle.std.specs.Prelude.{◌≡◌, ◌&&◌, ◌≤◌, length, take};
ghost use Rattle.text.specs.Text.{ends_in_cr};

use pad::ascii::CR;

// Is the last byte a CR? Where there is none, as before.
#[tactic(auto, using(crate::proofs::JoinedLaws::ends_none, crate::proofs::JoinedLaws::ends_last))]
pub fn ends_in_cr(cr: bool, bytes: &[u8]) -> bool
    ensures { result ≡ ends_in_cr cr bytes.now }
{
    match bytes {
        [.., last] => *last == CR,
        [] => cr,
    }
}

// Is an LF at this place passed over?
pub(crate) fn is_joined(joins: bool, cr: bool, bytes: &[u8], at: usize) -> bool
    requires { at ≤ length bytes.now }
    ensures { result ≡ (joins && ends_in_cr cr (take at bytes.now)) }
{
    joins && ends_in_cr(cr, &bytes[..at])
}
