// Host data: characters are written into their cells, and the cursor moves. It changes nothing else of a canvas.
ghost use Rattle.std.specs.Prelude.{◌≡◌, ◌+◌, ◌-◌, ◌≤◌, ◌<◌, length, set};
ghost use Rattle.screen.specs.Cells.{place};
ghost use Rattle.rules.specs.Session.{printable, placed};
ghost use Rattle.rules.specs.Telnet.{host_character, host_data, host_text};
ghost use Rattle.text.specs.Text.{obeyed_bytes};
ghost use Rattle.text.specs.Canvas.{shown, Draws};
ghost use Rattle.text.specs.Inner.Text.{control_at};
ghost use Rattle.text.specs.Inner.Canvas.{at_place, DrawStep};
ghost use Rattle.text.specs.Inner.Plain.{Each};

use crate::canvas::Canvas;
use crate::joined::is_joined;
use crate::plain::{character_at, count_characters};
use command::character::is_printable;
use command::frame::cursor_cell;
use decide::text::{Fate, control, write_host};
use edit::text::copy_text;
use pad::ascii::LF;
use screen::cell::Column;

// A cell takes a character, where there is such a cell.
pub fn set_cell(chars: &mut [u8], cell: usize, byte: u8)
    ensures { chars.new ≡ set chars.old cell byte }
{
    if cell < chars.len() {
        chars[cell] = byte;
    }
}

impl Canvas<'_> {
    // One character from the host.
    pub fn put_character(&mut self, byte: u8)
        ensures { Draws (host_character (shown self.old) byte) self.old self.new }
    {
        let writing = write_host(self.frame, self.attrs, byte);
        let Fate::Written = writing.fate else {
            return;
        };
        set_cell(self.chars, cursor_cell(self.frame), byte);
        self.frame.cursor = writing.cursor;
    }

    // One byte of host data.
    #[tactic(auto, unfolding(rules::specs::Telnet::host_data))]
    pub fn take_data(&mut self, byte: u8)
        ensures { Draws (host_data (shown self.old) byte) self.old self.new }
    {
        if is_printable(byte) {
            return self.put_character(byte);
        }
        self.frame.cursor = control(self.frame, byte);
    }

    // The cursor goes so many cells further on its line.
    fn go_right(&mut self, count: usize)
        requires { self.old.frame.cursor.x.0 + count < self.old.frame.width }
        ensures { self.new ≡ at_place self.old (place (self.old.frame.cursor.x.0 + count) self.old.frame.cursor.y.0) }
    {
        self.frame.cursor.x = Column(self.frame.cursor.x.0 + count as u8);
    }

    // Characters that stand in a row. A step is as many as can go into their cells by one copy.
    fn put_text(&mut self, bytes: &[u8], from: usize, end: usize)
        requires { (from ≤ end) × (end ≤ length bytes.now) × Each printable bytes.now from (end - from) }
        ensures { DrawStep bytes.now from self.old end self.new }
    {
        let mut at = from;
        while at < end {
            let count = self.open_run(end - at);
            if count == 0 {
                at = self.last_counts(at, end);
                self.put_character(bytes[at - 1]);
                continue;
            }
            copy_text(bytes, self.chars, at, at + count, cursor_cell(self.frame));
            self.go_right(count);
            at += count;
        }
    }

    // What is no character, at a place of the data. No byte but an LF asks whether it is passed over.
    fn obey_control(&mut self, joins: bool, cr: bool, bytes: &[u8], at: usize)
        requires { at < length bytes.now }
        ensures { Draws (control_at (shown self.old) joins cr bytes.now at) self.old self.new }
    {
        let byte = bytes[at];
        if byte == LF && is_joined(joins, cr, bytes, at) {
            return;
        }
        self.frame.cursor = control(self.frame, byte);
    }

    // Data does what its bytes do one after the other. Where `joins`, an LF right after a CR is passed over, and `cr` tells whether a CR
    // came last before the first byte. A step is a byte, or as many characters as stand in a row: one alone is not worth a copy.
    // It stays a function of its own, so that the cursor keeps its registers.
    #[inline(never)]
    #[tactic(auto, using(crate::proofs::PlainLaws::each_row))]
    pub fn host_text(&mut self, joins: bool, cr: bool, bytes: &[u8])
        ensures { Draws (host_text (shown self.old) (obeyed_bytes joins cr bytes.now)) self.old self.new }
    {
        let mut at = 0;
        while at < bytes.len() {
            let byte = bytes[at];
            if !is_printable(byte) {
                self.obey_control(joins, cr, bytes, at);
                at += 1;
                continue;
            }
            if !character_at(bytes, at + 1) {
                self.put_character(byte);
                at += 1;
                continue;
            }
            let end = at + 2 + count_characters(bytes, at + 2);
            self.put_text(bytes, at, end);
            at = end;
        }
    }
}
