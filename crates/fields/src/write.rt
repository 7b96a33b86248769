// The list written anew.
ghost use Rattle.std.specs.Prelude.{◌≡◌, ◌≤◌, length};
ghost use Rattle.screen.specs.FieldList.{fields_of};
ghost use Rattle.fields.specs.Rebuilt.{rebuilt};

use screen::field::field_end;
use screen::record::FieldRecord;

// Every record, from the first field on. Most records of a list stand behind the last field: those are written at once.
#[tactic(auto, using(crate::proofs::RecordLaws::writing, screen::proofs::FieldLaws::end_le))]
fn write_fields(list: &mut [FieldRecord], attrs: &[u8])
    requires { length attrs.now ≤ 8448 }
    ensures { list.new ≡ fields_of (length list.old) attrs.now }
{
    let mut cell = 0;
    for k in 0..list.len() {
        if attrs.len() <= cell {
            list[k..].fill(FieldRecord::default());
            return;
        }
        let end = field_end(attrs, cell);
        list[k] = FieldRecord {
            start: cell as u32,
            length: (end - cell) as u32,
        };
        cell = end;
    }
}

// Writes the first `count` records of the list; the others stay. No screen has more than 8,448 cells.
#[tactic(auto, using(crate::proofs::RecordLaws::rebuilt_first))]
pub fn rebuild(list: &mut [FieldRecord], attrs: &[u8], count: usize)
    ensures { list.new ≡ rebuilt count attrs.now list.old }
{
    if attrs.len() <= 8448 {
        let end = count.min(list.len());
        write_fields(&mut list[..end], attrs);
    }
}
