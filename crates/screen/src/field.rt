// Fields, the longest runs of equal attribute bytes, and the edit span.
ghost use Rattle.std.specs.Prelude.{◌≡◌, length};
ghost use Rattle.screen.specs.Attributes.{guarded_at};
ghost use Rattle.screen.specs.Words.{some_in};
ghost use Rattle.screen.specs.Fields.{field_start, field_end, span_end};

use crate::attribute::is_guarded;
use crate::scan::{Target, first, last};

// The first cell of the cell's field.
#[tactic(auto, unfolding(crate::specs::Fields::field_start, crate::specs::Scans::is_target))]
pub fn field_start(attrs: &[u8], cell: usize) -> usize
    ensures { result ≡ field_start attrs.now cell }
{
    last(attrs, Target::FieldStart, cell.saturating_add(1), 0)
}

// The cell after the last one of the cell's field.
#[tactic(auto, using(crate::proofs::WordLaws::first_end), unfolding(crate::specs::Fields::field_end, crate::specs::Scans::is_target))]
pub fn field_end(attrs: &[u8], cell: usize) -> usize
    ensures { result ≡ field_end attrs.now cell }
{
    let next = cell.saturating_add(1);
    first(attrs, Target::FieldStart, next, attrs.len())
}

// The cell after the last one of the edit span, which starts at the cell; `stop` is the end of its line.
#[tactic(auto, unfolding(crate::specs::Fields::span_end))]
pub fn span_end(suppressed: bool, attrs: &[u8], cell: usize, stop: usize) -> usize
    ensures { result ≡ span_end suppressed attrs.now cell stop }
{
    if suppressed {
        return stop;
    }
    field_end(attrs, cell).min(stop)
}

// Is some cell from `from` on guarded? A field is guarded as a whole, so one look at each is enough: the step
// is a field.
#[tactic(auto, using(crate::proofs::FieldLaws::by_fields))]
pub fn some_guarded(suppressed: bool, attrs: &[u8], from: usize) -> bool
    ensures { result ≡ some_in (guarded_at suppressed attrs.now) from (length attrs.now) }
{
    let mut cell = from;
    while cell < attrs.len() {
        if is_guarded(suppressed, attrs, cell) {
            return true;
        }
        cell = field_end(attrs, cell);
    }
    false
}
