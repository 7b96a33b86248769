// Characters from the host, decided: how many stand in the input in a row, and how many of them go into their cells by one copy. The
// loops of constant length have one way out, so that the compiler tests sixteen bytes at once.
ghost use Rattle.std.specs.Prelude.{Bool, ℕ, ◌≡◌, true, ◌&&◌, ◌+◌, ◌-◌, ◌≤◌, ◌<◌, length, get_or};
ghost use Rattle.screen.specs.Cells.{cell_of};
ghost use Rattle.rules.specs.Session.{printable};
ghost use Rattle.rules.specs.Cursor.{next_cell};
ghost use Rattle.text.specs.Canvas.{shown};
ghost use Rattle.text.specs.Inner.Plain.{unguarded, Each, OpenRun, LastCounts};

use crate::canvas::Canvas;
use command::character::is_printable;
use command::frame::{cursor_cell, cursor_guarded};
use rules::Frame;
use screen::protection::Protection;

// A test on bytes.
trait Test {
    ghost passed: { ℕ → Bool };

    fn passes(byte: u8) -> bool
        ensures { result ≡ passed byte };
}

// Is it a character?
struct Printable;

impl Test for Printable {
    ghost passed = { printable };

    fn passes(byte: u8) -> bool {
        is_printable(byte)
    }
}

// As the attribute byte of a cell: is the cell not protected?
struct Unguarded;

impl Test for Unguarded {
    ghost passed = { unguarded };

    fn passes(byte: u8) -> bool {
        Protection::of(byte) != Protection::Protected
    }
}

// ---- bytes in a row that pass a test

fn sixteen<T: Test>(bytes: &[u8], from: usize) -> bool
    requires { from + 16 ≤ length bytes.now }
    ensures { result ≡ true → Each T.passed bytes.now from 16 }
{
    let mut all = true;
    for i in 0..16 {
        all &= T::passes(bytes[from + i]);
    }
    all
}

// Sixteen at a time, as long as all of them pass.
#[tactic(auto, using(crate::proofs::PlainLaws::each_on))]
fn by_sixteens<T: Test>(bytes: &[u8]) -> usize
    ensures { (result ≤ length bytes.now) × Each T.passed bytes.now 0 result }
{
    let mut n = 0;
    while 16 <= bytes.len() - n && sixteen::<T>(bytes, n) {
        n += 16;
    }
    n
}

// The last sixteen, some of them tested twice, stand for the rest.
#[tactic(auto, using(crate::proofs::PlainLaws::each_on))]
fn by_ends<T: Test>(bytes: &[u8]) -> usize
    ensures { (result ≤ length bytes.now) × Each T.passed bytes.now 0 result }
{
    let all = bytes.len();
    let n = by_sixteens::<T>(bytes);
    if 16 <= all && all - n < 16 && sixteen::<T>(bytes, all - 16) {
        return all;
    }
    n
}

// How many, from the first on. By `take_while` and `count` was tried: for a test that is a type parameter the proof did not close.
#[tactic(auto, using(crate::proofs::PlainLaws::each_next))]
fn count<T: Test>(bytes: &[u8]) -> usize
    ensures { (result ≤ length bytes.now) × Each T.passed bytes.now 0 result }
{
    let mut n = by_ends::<T>(bytes);
    while n < bytes.len() && T::passes(bytes[n]) {
        n += 1;
    }
    n
}

// ---- characters in a row

// Does one stand there?
pub(crate) fn character_at(bytes: &[u8], at: usize) -> bool
    ensures { result ≡ true → (at < length bytes.now) × (printable (get_or bytes.now at 0) ≡ true) }
{
    bytes.get(at).is_some_and(|byte| is_printable(*byte))
}

// How many stand there in a row.
#[tactic(auto, using(crate::proofs::PlainLaws::each_drop))]
pub(crate) fn count_characters(bytes: &[u8], from: usize) -> usize
    requires { from ≤ length bytes.now }
    ensures { (from + result ≤ length bytes.now) × Each printable bytes.now from result }
{
    count::<Printable>(&bytes[from..])
}

// ---- cells in a row that are not guarded

// Those before the last cell of the cursor's line, and before the end of `cells` cells.
fn room_on_line(frame: Frame, cells: usize) -> usize
    ensures { (result ≤ frame.width - (frame.cursor.x.0 + 1)) × (result ≤ cells - cell_of frame.width frame.cursor) }
{
    let x = frame.cursor.x.0 as usize;
    let line = (frame.width as usize).saturating_sub(x + 1);
    line.min(cells.saturating_sub(cursor_cell(frame)))
}

// How many of these cells.
#[tactic(auto, using(crate::proofs::PlainLaws::each_within))]
fn count_unguarded(attrs: &[u8], from: usize, end: usize) -> usize
    requires { (from ≤ end) × (end ≤ length attrs.now) }
    ensures { (result ≤ end - from) × Each unguarded attrs.now from result }
{
    count::<Unguarded>(&attrs[from..end])
}

impl Canvas<'_> {
    // How many characters, at most `most`, go into their cells by one copy: from the cursor on, before the last cell of its line.
    pub(crate) fn open_run(&self, most: usize) -> usize
        ensures { OpenRun self.now.frame self.now.attrs.now (length self.now.chars.now) most result }
    {
        let few = room_on_line(self.frame, self.chars.len().min(self.attrs.len())).min(most);
        if self.frame.suppressed || few == 0 {
            return few;
        }
        let cell = cursor_cell(self.frame);
        count_unguarded(self.attrs, cell, cell + few)
    }
}

// ---- where the cursor stays

#[tactic(auto, using(crate::proofs::PlainLaws::last_cell))]
fn at_last_cell(frame: Frame) -> bool
    ensures { result ≡ true → next_cell frame ≡ frame.cursor }
{
    let at = frame.cursor;
    frame.width as usize <= at.x.0 as usize + 1 && frame.height as usize <= at.y.0 as usize + 1
}

impl Canvas<'_> {
    // Of the characters from `at` up to the answer only the last counts. On a guarded cell all are lost; at the screen's last cell each
    // takes the place of the one before.
    #[tactic(auto, using(crate::proofs::PlainLaws::stays_guarded, crate::proofs::PlainLaws::stays_last))]
    pub(crate) fn last_counts(&self, at: usize, end: usize) -> usize
        requires { at < end }
        ensures { LastCounts (shown self.now) at end result }
    {
        if cursor_guarded(self.frame, self.attrs) || at_last_cell(self.frame) {
            return end;
        }
        at + 1
    }
}
