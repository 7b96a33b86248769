// The attribute byte of a cell, and what it protects.
ghost use Rattle.std.specs.Prelude.{◌≡◌};
ghost use Rattle.screen.specs.Attributes.{protection, attribute_at, protected_at, guarded_at};

use crate::protection::Protection;

// As a number: 0 none, 1 protected, 2 alphabetic, 3 numeric. `Protection::of` has it by name.
pub fn protection(attr: u8) -> u8
    ensures { result ≡ protection attr }
{
    attr / 8 % 4
}

// A cell that has no attribute byte counts as protected.
pub fn attribute_at(attrs: &[u8], cell: usize) -> u8
    ensures { result ≡ attribute_at attrs.now cell }
{
    attrs.get(cell).copied().unwrap_or(8)
}

#[tactic(auto, unfolding(crate::specs::Attributes::protected_at))]
pub fn is_protected(attrs: &[u8], cell: usize) -> bool
    ensures { result ≡ protected_at attrs.now cell }
{
    Protection::of(attribute_at(attrs, cell)) == Protection::Protected
}

pub fn is_guarded(suppressed: bool, attrs: &[u8], cell: usize) -> bool
    ensures { result ≡ guarded_at suppressed attrs.now cell }
{
    !suppressed && is_protected(attrs, cell)
}
