// What goes out at a typed key (RFC 1053, parameters 3 and 13).
ghost use Rattle.std.specs.Prelude.{◌≡◌, [], ◌∷◌, ◌++◌, ◌≤◌, if◌then◌else◌};
ghost use Rattle.words.specs.Stored.{Emitted};
ghost use Rattle.pad.specs.Line.{text_of};
ghost use Rattle.typing.specs.Keys.{sent_as, all_sent, out_of};

use crate::key::{Kind, kind_of};
use pad::ascii::{CR, LF};
use pad::line::EditLine;
use pad::parameter::{LF_INSERTION, LF_ON_INPUT, Values, has};

// What follows a CR.
fn after_cr(lf: bool) -> u8
    ensures { result ≡ (if lf then 10 else 0) }
{
    if lf { LF } else { 0 }
}

// A buffer, and where its next byte goes. It stays the buffer that was lent (`same`).
#[derive(Drop)]
struct Out<'a> {
    bytes: &'a mut [u8],
    at: usize,
}

impl Out<'_> {
    // A byte, where the buffer has room for it.
    fn put(&mut self, byte: u8)
        requires { self.old.at ≤ 257 }
        ensures stored { Emitted self.old.bytes.now self.old.at (byte ∷ []) self.new.bytes.now self.new.at }
        ensures same { self.new.bytes.ghost_name ≡ self.old.bytes.ghost_name }
    {
        if self.at < self.bytes.len() {
            self.bytes[self.at] = byte;
        }
        self.at += 1;
    }

    // A character as it is sent.
    #[tactic(auto, unfolding(crate::specs::Keys::sent_as))]
    fn put_character(&mut self, byte: u8, lf: bool)
        requires { self.old.at ≤ 256 }
        ensures stored { Emitted self.old.bytes.now self.old.at (sent_as lf byte) self.new.bytes.now self.new.at }
        ensures same { self.new.bytes.ghost_name ≡ self.old.bytes.ghost_name }
    {
        self.put(byte);
        if byte == CR {
            self.put(after_cr(lf));
        }
    }
}

// The line's characters, then the key.
fn put_forwarded(lf: bool, line: EditLine, key: u8, bytes: &mut [u8]) -> usize
    ensures { Emitted bytes.old 0 (all_sent lf (text_of line ++ (key ∷ []))) bytes.new result }
{
    let mut out = Out { bytes, at: 0 };
    let text = line.text();
    for &byte in text {
        out.put_character(byte, lf);
    }
    out.put_character(key, lf);
    out.at
}

// Writes what goes out from the buffer's start on, and returns how many bytes that are: 258 at the most. A buffer that is too
// short takes what fits.
#[tactic(auto, unfolding(crate::specs::Keys::out_of, crate::specs::Keys::out_by))]
pub fn write_out(values: Values, line: EditLine, key: u8, out: &mut [u8]) -> usize
    ensures { Emitted out.old 0 (out_of values (text_of line) key) out.new result }
{
    match kind_of(values, key) {
        Kind::Forward => put_forwarded(has(values, LF_INSERTION, LF_ON_INPUT), line, key, out),
        _ => 0,
    }
}
