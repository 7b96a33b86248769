// Which unprotected field is a cell in? The list answers: of each field up to that one, one attribute byte is read.
ghost use Rattle.std.specs.Prelude.{◌≡◌};
ghost use Rattle.screen.specs.FieldList.{has_cell, found_by_list};

use screen::attribute::is_protected;
use screen::record::{FieldRecord, Found};

fn has_cell(field: FieldRecord, cell: usize) -> bool
    ensures { result ≡ has_cell field cell }
{
    let start = field.start as usize;
    start <= cell && cell - start < field.length as usize
}

// The scan ends at the record that has the cell, and at the zeros.
#[tactic(auto, using(crate::proofs::FindLaws::finding))]
pub fn field_at(list: &[FieldRecord], attrs: &[u8], cell: usize) -> Option<Found>
    ensures { result ≡ found_by_list list.now attrs.now cell }
{
    let mut number = 0;
    for said in list {
        if said.length == 0 {
            return None;
        }
        let protected = is_protected(attrs, said.start as usize);
        number += usize::from(!protected);
        if has_cell(*said, cell) {
            let found = Found {
                number,
                field: *said,
            };
            return (!protected).then_some(found);
        }
    }
    None
}
