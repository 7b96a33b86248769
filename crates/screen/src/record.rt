// A field as a record, for the list of fields that a caller lends, and what such a list is asked for. 32 bits are wide enough for any
// cell and any count of cells of a screen, and keep the list small: a call looks at every record of it.

// A field: its first cell, and how many cells it has. Both are 0 in a record behind the last field.
#[repr(C)]
#[derive(Clone, Copy, Debug, Default, PartialEq, Eq)]
pub struct FieldRecord {
    pub start: u32,
    pub length: u32,
}

// The unprotected field that a cell is in: its number among the unprotected fields, from 1, and its record.
#[derive(Clone, Copy, Debug, PartialEq, Eq)]
pub struct Found {
    pub number: usize,
    pub field: FieldRecord,
}
