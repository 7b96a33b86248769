// Does a list agree with the attributes?
ghost use Rattle.std.specs.Prelude.{◌≡◌, ◌&&◌, eqb};
ghost use Rattle.screen.specs.FieldList.{agrees};
ghost use Rattle.fields.specs.Inner.Records.{joined, is_unused, all_unused};
ghost use Rattle.fields.specs.Inner.Scans.{all_read};

use crate::scan::{Scan, scan_list};
use crate::starts::count_starts;
use screen::record::FieldRecord;

// Both numbers of a record in one, as they lie side by side in memory: the compiler then reads them at once.
// (`start | length` in its place: `agrees` takes 1.2 times the instructions.)
fn joined(said: FieldRecord) -> usize
    ensures { result ≡ joined said }
{
    said.length as usize * 4294967296 + said.start as usize
}

// Are all records zeros? The loop has one way out, so that the compiler looks at several records at once.
#[tactic(auto, using(crate::proofs::RecordLaws::unused_next, crate::proofs::RecordLaws::unused_end, crate::proofs::RecordLaws::or_unused))]
fn all_unused(list: &[FieldRecord]) -> bool
    ensures { result ≡ all_unused list.now }
{
    let mut any = 0;
    for said in list {
        any |= joined(*said);
    }
    any == 0
}

// The records end where the screen does, and there are as many as fields.
fn all_read(scan: Scan, attrs: &[u8]) -> bool
    ensures { result ≡ all_read scan attrs.now }
{
    scan.cell == attrs.len() && scan.count == count_starts(attrs)
}

#[tactic(auto, using(crate::proofs::ScanLaws::agreeing))]
pub fn agrees(list: &[FieldRecord], attrs: &[u8]) -> bool
    ensures { result ≡ agrees list.now attrs.now }
{
    let scan = scan_list(list, attrs);
    all_read(scan, attrs) && all_unused(&list[scan.count..])
}
