// The cursor after a typed character.
ghost use Rattle.std.specs.Prelude.{◌≡◌, ◌*◌, ◌<◌, length};
ghost use Rattle.screen.specs.Cells.{cell_of, place_of};
ghost use Rattle.screen.specs.Scans.{next_open, next_open_place};
ghost use Rattle.screen.specs.Inner.Skips.{PastGuarded};

use crate::attribute::is_guarded;
use crate::block::past;
use crate::cell::{Column, Line, Place, cell_of, line_start, on_screen, place_of};
use crate::scan::Target;

// A place after the cursor's up to which all are guarded; past the last line where none is left.
#[tactic(auto, using(crate::proofs::CellLaws::byte_product, crate::proofs::CellLaws::cell_lt))]
fn past_guarded(suppressed: bool, attrs: &[u8], width: u8, height: u8, cursor: Place) -> Place
    requires { (cursor.x.0 < width) × (cursor.y.0 < height) × (length attrs.now ≡ height * width) }
    ensures { PastGuarded suppressed attrs.now width height cursor result }
{
    let target = Target::Open(suppressed);
    let cell = past(attrs, target, cell_of(width, cursor) + 1, attrs.len());
    place_of(width, cell)
}

// (Document 01, code places: a nested scan over lines and positions, left by a label at the first open cell.)
#[tactic(auto, using(crate::proofs::OpenAfter::scanning))]
fn open_after(suppressed: bool, attrs: &[u8], width: u8, height: u8, cursor: Place) -> Place
    requires { (cursor.x.0 < width) × (cursor.y.0 < height) × (length attrs.now ≡ height * width) }
    ensures { result ≡ place_of width (next_open suppressed attrs.now (cell_of width cursor)) }
{
    let from = past_guarded(suppressed, attrs, width, height, cursor);
    let mut left = from.x.0;
    let mut open = cursor;
    'scan: for y in from.y.0..height {
        for x in left..width {
            let here = Place {
                x: Column(x),
                y: Line(y),
            };
            if !is_guarded(suppressed, attrs, cell_of(width, here)) {
                open = here;
                break 'scan;
            }
        }
        left = 0;
    }
    open
}

// The next place that is not guarded; none, the cursor's own.
#[tactic(auto, using(crate::proofs::CellLaws::on_screen_lem), unfolding(crate::specs::Scans::next_open_place))]
pub fn next_open(suppressed: bool, attrs: &[u8], width: u8, height: u8, cursor: Place) -> Place
    ensures { result ≡ next_open_place suppressed attrs.now width height cursor }
{
    if !on_screen(width, height, cursor) || attrs.len() != line_start(width, Line(height)) {
        return cursor;
    }
    open_after(suppressed, attrs, width, height, cursor)
}
