// Places and cells. Character position and line position are two kinds of quantity: neither can be handed over for the other.
// (Document 01, code places: tuple structs for x and y.)
ghost use Rattle.std.specs.Prelude.{◌≡◌};
ghost use Rattle.screen.specs.Cells.{cell_of, on_screen, line_start, line_end, place_or_origin};

#[derive(Clone, Copy, Debug, Default, PartialEq, Eq)]
pub struct Column(pub u8);

#[derive(Clone, Copy, Debug, Default, PartialEq, Eq)]
pub struct Line(pub u8);

#[derive(Clone, Copy, Debug, Default, PartialEq, Eq)]
pub struct Place {
    pub x: Column,
    pub y: Line,
}

// Is the place on a screen of this size?
pub fn on_screen(width: u8, height: u8, place: Place) -> bool
    ensures { result ≡ on_screen width height place }
{
    place.x.0 < width && place.y.0 < height
}

// The first cell of a line.
#[tactic(auto, using(crate::proofs::CellLaws::byte_product))]
pub fn line_start(width: u8, y: Line) -> usize
    ensures { result ≡ line_start width y }
{
    usize::from(y.0) * usize::from(width)
}

// The cell after a line's last.
#[tactic(auto, using(crate::proofs::CellLaws::byte_product))]
pub fn line_end(width: u8, y: Line) -> usize
    ensures { result ≡ line_end width y }
{
    line_start(width, y) + usize::from(width)
}

#[tactic(auto, using(crate::proofs::CellLaws::byte_product))]
pub fn cell_of(width: u8, place: Place) -> usize
    ensures { result ≡ cell_of width place }
{
    line_start(width, place.y) + usize::from(place.x.0)
}

#[tactic(auto, using(crate::proofs::CellLaws::place_on_screen), unfolding(crate::specs::Cells::place_or_origin))]
pub fn place_of(width: u8, cell: usize) -> Place
    ensures { result ≡ place_or_origin width cell }
{
    let m = usize::from(width);
    if cell < 256 * m {
        Place {
            x: Column((cell % m) as u8),
            y: Line((cell / m) as u8),
        }
    } else {
        Place::default()
    }
}
