// Scans over the screen's cells in reading order. What is answered where there is none is the caller's, as in `first_of`.
ghost use Rattle.std.specs.Prelude.{◌≡◌, ◌-◌, ◌≤◌, ◌<◌, length};
ghost use Rattle.screen.specs.Words.{first_of};
ghost use Rattle.screen.specs.Fields.{first_from, first_around, last_before};
ghost use Rattle.screen.specs.Scans.{is_target};

use crate::attribute::is_guarded;
use crate::block::{behind, past};
use crate::start::{opens_at, starts_at};

// What a scan looks for. An enum and no closure: it also tells which cells a block is passed over by (`is_passed` in block.rt).
#[derive(Clone, Copy, Debug, PartialEq, Eq)]
pub enum Target {
    FieldStart,
    UnprotectedStart,
    // a cell that is not guarded, where this tells whether protection is suppressed
    Open(bool),
}

#[tactic(auto, unfolding(crate::specs::Scans::is_target))]
fn is_target(attrs: &[u8], target: Target, cell: usize) -> bool
    ensures { result ≡ is_target attrs.now target cell }
{
    match target {
        Target::FieldStart => starts_at(attrs, cell),
        Target::UnprotectedStart => opens_at(attrs, cell),
        Target::Open(suppressed) => !is_guarded(suppressed, attrs, cell),
    }
}

// The first such cell from `from` on and before `end`, found by blocks and then one by one; none, `none`.
#[tactic(auto, using(crate::proofs::WordLaws::first_hit, crate::proofs::WordLaws::first_end, crate::proofs::SkipLaws::first_past_none))]
fn first_by_blocks(attrs: &[u8], target: Target, from: usize, end: usize, none: usize) -> usize
    requires { (0 < from) × (from ≤ end) × (end ≤ length attrs.now) }
    ensures { result ≡ first_of (is_target attrs.now target) none from (end - from) }
{
    for cell in past(attrs, target, from, end)..end {
        if is_target(attrs, target, cell) {
            return cell;
        }
    }
    none
}

// The same, a look at `from` itself before the blocks: most scans are short.
#[tactic(auto, using(crate::proofs::WordLaws::first_hit, crate::proofs::WordLaws::first_skip, crate::proofs::WordLaws::first_end))]
fn first_up_to(attrs: &[u8], target: Target, from: usize, end: usize, none: usize) -> usize
    requires { end ≤ length attrs.now }
    ensures { result ≡ first_of (is_target attrs.now target) none from (end - from) }
{
    if end <= from {
        return none;
    }
    if is_target(attrs, target, from) {
        return from;
    }
    first_by_blocks(attrs, target, from + 1, end, none)
}

// The first such cell from `from` on; none, `none`.
pub fn first(attrs: &[u8], target: Target, from: usize, none: usize) -> usize
    ensures { result ≡ first_from (is_target attrs.now target) attrs.now from none }
{
    first_up_to(attrs, target, from, attrs.len(), none)
}

// The first such cell from `from` on or, where there is none, of all; none, `none`. What has been looked at is not looked at again.
#[tactic(auto, using(crate::proofs::WordLaws::around_found, crate::proofs::WordLaws::around_left))]
pub fn first_around(attrs: &[u8], target: Target, from: usize, none: usize) -> usize
    ensures { result ≡ first_around (is_target attrs.now target) attrs.now from none }
{
    let next = first(attrs, target, from, attrs.len());
    if next < attrs.len() {
        return next;
    }
    first_up_to(attrs, target, 0, from.min(attrs.len()), none)
}

// The last such cell before `before`; none, `none`.
#[tactic(auto, using(crate::proofs::SkipLaws::last_past_none), unfolding(crate::specs::Words::last_of))]
pub fn last(attrs: &[u8], target: Target, before: usize, none: usize) -> usize
    ensures { result ≡ last_before (is_target attrs.now target) attrs.now before none }
{
    let end = behind(attrs, target, before.min(attrs.len()));
    for cell in (0..end).rev() {
        if is_target(attrs, target, cell) {
            return cell;
        }
    }
    none
}
