// Scans by blocks of thirty-two cells. The loop over a block has a constant length and one way out, so that the compiler tests
// sixteen cells at once.
ghost use Rattle.std.specs.Prelude.{◌≡◌, true, ◌&&◌, ◌||◌, ◌+◌, ◌≤◌, ◌<◌, length};
ghost use Rattle.screen.specs.Inner.Skips.{NoneIn, passes_protected, passes_alike, passed};

use crate::protection::Protection;
use crate::scan::Target;

#[tactic(auto, unfolding(crate::specs::Inner::Skips::passes_protected))]
fn passes_protected(target: Target) -> bool
    ensures { result ≡ passes_protected target }
{
    match target {
        Target::FieldStart => false,
        Target::UnprotectedStart => true,
        Target::Open(suppressed) => !suppressed,
    }
}

#[tactic(auto, unfolding(crate::specs::Inner::Skips::passes_alike))]
fn passes_alike(target: Target) -> bool
    ensures { result ≡ passes_alike target }
{
    match target {
        Target::FieldStart | Target::UnprotectedStart => true,
        Target::Open(_) => false,
    }
}

fn is_passed(protected: bool, alike: bool, before: u8, here: u8) -> bool
    ensures { result ≡ passed protected alike before here }
{
    let shut = Protection::of(here) == Protection::Protected;
    (protected & shut) | (alike & (before == here))
}

// Is none of the block's cells what is looked for?
#[tactic(auto, using(crate::proofs::SkipLaws::passed_none_in))]
fn none_in_block(attrs: &[u8], target: Target, cell: usize) -> bool
    requires { (0 < cell) × (cell + 32 ≤ length attrs.now) }
    ensures { result ≡ true → NoneIn attrs.now target cell (cell + 32) }
{
    let protected = passes_protected(target);
    let alike = passes_alike(target);
    let mut none = true;
    for i in 0..32 {
        none &= is_passed(protected, alike, attrs[cell + i - 1], attrs[cell + i]);
    }
    none
}

// A cell before `end` or there, up to which none is what is looked for. By blocks, each with the cell before it: those are no chunks.
#[tactic(auto, using(crate::proofs::SkipLaws::none_there, crate::proofs::SkipLaws::none_then))]
pub(crate) fn past(attrs: &[u8], target: Target, from: usize, end: usize) -> usize
    requires { (0 < from) × (from ≤ end) × (end ≤ length attrs.now) }
    ensures { (from ≤ result) × (result ≤ end) × NoneIn attrs.now target from result }
{
    let mut cell = from;
    while 32 <= end - cell && none_in_block(attrs, target, cell) {
        cell += 32;
    }
    cell
}

// A cell from which none up to `end` is what is looked for.
#[tactic(auto, using(crate::proofs::SkipLaws::none_there, crate::proofs::SkipLaws::none_then))]
pub(crate) fn behind(attrs: &[u8], target: Target, end: usize) -> usize
    requires { end ≤ length attrs.now }
    ensures { (result ≤ end) × NoneIn attrs.now target result end }
{
    let mut cell = end;
    while 32 < cell && none_in_block(attrs, target, cell - 32) {
        cell -= 32;
    }
    cell
}
