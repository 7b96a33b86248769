// Request (v): the marks of a range of cells, from `from` up to `end`.
ghost use Rattle.std.specs.Prelude.{◌≡◌};
ghost use Rattle.edit.specs.Edits.{some_marked};

// Is a cell of the range marked?
#[tactic(auto, using(crate::proofs::MarkLaws::marked_part, crate::proofs::MarkLaws::marked_none))]
pub fn some_marked(marks: &[u8], from: usize, end: usize) -> bool
    ensures { result ≡ some_marked marks.now from end }
{
    let stop = end.min(marks.len());
    from < stop && marks[from..stop].contains(&1)
}
