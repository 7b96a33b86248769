// What becomes of the characters, attribute bytes and marks of a range of cells, from `from` up to `end`.
ghost use Rattle.std.specs.Prelude.{◌≡◌, false, eqb, if◌then◌else◌};
ghost use Rattle.screen.specs.Attributes.{protection};
ghost use Rattle.edit.specs.Edits.{shifted, on_part, erased, filled};

use screen::protection::Protection;

// What is done at the start of a range: the rest of it moves.
#[derive(Clone, Copy, Debug, PartialEq, Eq)]
pub enum Shift {
    Insertion,
    Deletion,
}

// Every byte `by` places towards the part's end, or towards its start, and spaces where none comes.
#[tactic(auto, using(crate::proofs::EditLaws::inserted_all, crate::proofs::EditLaws::deleted_all), unfolding(crate::specs::Edits::shifted))]
fn shift_part(part: &mut [u8], shift: Shift, by: usize)
    ensures { part.new ≡ shifted shift by part.old }
{
    let spaces = by.min(part.len());
    let moved = part.len() - spaces;
    match shift {
        Shift::Insertion => {
            part.copy_within(..moved, spaces);
            part[..spaces].fill(32);
        }
        Shift::Deletion => {
            part.copy_within(spaces.., 0);
            part[moved..].fill(32);
        }
    }
}

// Inserts `by` spaces at the start of the range, or deletes `by` characters there.
// (Document 01, code places: the mutable part that starts at the cursor is lent to the shifting routine.)
#[tactic(auto, using(crate::proofs::EditLaws::put_part, crate::proofs::EditLaws::put_none))]
pub fn shift_range(chars: &mut [u8], from: usize, end: usize, shift: Shift, by: usize)
    ensures { chars.new ≡ on_part from end (shifted shift by) chars.old }
{
    if from <= end && end <= chars.len() {
        shift_part(&mut chars[from..end], shift, by);
    }
}

// The byte in every cell of the range: an attribute byte, a mark, a space.
#[tactic(auto, using(crate::proofs::EditLaws::filled_part, crate::proofs::EditLaws::filled_none))]
pub fn fill(bytes: &mut [u8], from: usize, end: usize, byte: u8)
    ensures { bytes.new ≡ filled from end byte bytes.old }
{
    let stop = end.min(bytes.len());
    if from < stop {
        bytes[from..stop].fill(byte);
    }
}

// What a cell with this attribute byte then holds.
fn kept(attr: u8, byte: u8) -> u8
    ensures { result ≡ (if eqb (protection attr) 1 then byte else 32) }
{
    if Protection::of(attr) == Protection::Protected {
        byte
    } else {
        32
    }
}

// Spaces in the cells of the range that are not protected. The loop reads and stores each cell, so that the compiler does sixteen at once.
fn erase_unprotected(chars: &mut [u8], attrs: &[u8], from: usize, end: usize)
    ensures { chars.new ≡ erased false chars.old attrs.now from end }
{
    let stop = end.min(chars.len()).min(attrs.len());
    for i in from..stop {
        chars[i] = kept(attrs[i], chars[i]);
    }
}

// Spaces in the cells of the range that are not guarded.
#[tactic(auto, using(crate::proofs::EditLaws::erased_all))]
pub fn erase(suppressed: bool, chars: &mut [u8], attrs: &[u8], from: usize, end: usize)
    ensures { chars.new ≡ erased suppressed chars.old attrs.now from end }
{
    if suppressed {
        fill(chars, from, end, 32);
    } else {
        erase_unprotected(chars, attrs, from, end);
    }
}
