// Where a field starts.
ghost use Rattle.std.specs.Prelude.{◌≡◌};
ghost use Rattle.screen.specs.Fields.{starts_at, opens_at};

use crate::attribute::{attribute_at, is_protected};

// Does a field start at the cell?
#[tactic(auto, using(crate::proofs::FieldLaws::starts_after), unfolding(crate::specs::Fields::starts_at))]
pub fn starts_at(attrs: &[u8], cell: usize) -> bool
    ensures { result ≡ starts_at attrs.now cell }
{
    cell == 0 || attribute_at(attrs, cell - 1) != attribute_at(attrs, cell)
}

// Does an unprotected field start at the cell?
#[tactic(auto, unfolding(crate::specs::Fields::opens_at))]
pub fn opens_at(attrs: &[u8], cell: usize) -> bool
    ensures { result ≡ opens_at attrs.now cell }
{
    starts_at(attrs, cell) && !is_protected(attrs, cell)
}
