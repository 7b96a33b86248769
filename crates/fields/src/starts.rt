// How many fields start on a screen.
ghost use Rattle.std.specs.Prelude.{◌≡◌, ◌+◌, ◌≤◌, ◌<◌, length};
ghost use Rattle.fields.specs.Inner.Starts.{starts_before};

// How many fields start from `from` up to `end`. A byte is wide enough for a block, and the loop has one way out, so that the
// compiler tests and counts sixteen cells at once.
#[tactic(auto, using(crate::proofs::CountLaws::starts_next))]
fn starts_in_block(attrs: &[u8], from: usize, end: usize) -> u8
    requires { (0 < from) × (from ≤ end) × (end ≤ from + 128) × (end ≤ length attrs.now) }
    ensures { starts_before attrs.now from + result ≡ starts_before attrs.now end }
{
    let mut count = 0;
    for cell in from..end {
        count += u8::from(attrs[cell - 1] != attrs[cell]);
    }
    count
}

// A field starts at the first cell, if there is one. By blocks, each with the cell before it: those are no chunks.
#[tactic(auto, using(crate::proofs::CountLaws::first_starts, crate::proofs::CountLaws::starts_few))]
pub(crate) fn count_starts(attrs: &[u8]) -> usize
    ensures { result ≡ starts_before attrs.now (length attrs.now) }
{
    if attrs.is_empty() {
        return 0;
    }
    let mut count = 1;
    let mut cell = 1;
    while cell < attrs.len() {
        let end = cell + (attrs.len() - cell).min(128);
        count += usize::from(starts_in_block(attrs, cell, end));
        cell = end;
    }
    count
}
