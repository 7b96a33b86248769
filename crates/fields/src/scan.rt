// The records of a list, held against the attributes one after the other.
ghost use Rattle.std.specs.Prelude.{◌≡◌, ◌≤◌, length};
ghost use Rattle.fields.specs.Inner.Scans.{begun, is_next, end_of, goes_on, scanned};

use screen::record::FieldRecord;
use screen::start::starts_at;

// What a scan of the list has come to.
#[derive(Clone, Copy, Debug, Default, PartialEq, Eq)]
pub(crate) struct Scan {
    // where the next record starts
    pub(crate) cell: usize,
    // the records that follow one on the other
    pub(crate) count: usize,
}

// Does the record start at the cell, and has it some?
fn is_next(cell: usize, said: FieldRecord) -> bool
    ensures { result ≡ is_next cell said }
{
    said.start as usize == cell && said.length != 0
}

// The cell after its last.
fn end_of(said: FieldRecord) -> usize
    ensures { result ≡ end_of said }
{
    said.start as usize + said.length as usize
}

// Does a field start at a cell of the screen?
fn goes_on(attrs: &[u8], cell: usize) -> bool
    ensures { result ≡ goes_on attrs.now cell }
{
    cell < attrs.len() && starts_at(attrs, cell)
}

// Each record starts where the one before ended, and where it ends a field starts. That none starts in between is not looked at here:
// as many records as fields cannot pass one over. The scan goes up to the screen's end.
#[tactic(auto, using(crate::proofs::ScanLaws::scanning))]
pub(crate) fn scan_list(list: &[FieldRecord], attrs: &[u8]) -> Scan
    ensures { (result ≡ scanned begun list.now attrs.now) × (result.count ≤ length list.now) }
{
    let mut scan = Scan::default();
    for said in list {
        if !is_next(scan.cell, *said) {
            return scan;
        }
        scan = Scan {
            cell: end_of(*said),
            count: scan.count + 1,
        };
        if !goes_on(attrs, scan.cell) {
            return scan;
        }
    }
    scan
}
