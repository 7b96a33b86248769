// What host text is written on.
use rules::Frame;

// The frame, whose cursor moves, the characters, which change, and the attribute bytes, which stay.
#[derive(Drop)]
pub struct Canvas<'a> {
    pub frame: Frame,
    pub chars: &'a mut [u8],
    pub attrs: &'a [u8],
}
