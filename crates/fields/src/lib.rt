// The list of all fields that a caller lends (document 02, request vii): does it agree with the attributes, which unprotected field is
// a cell in, and the list written anew. Nothing here asks anything of its caller.
// The slice of records is looked into in four places: `scan_list`, `all_unused` and `field_at` read it, `write_fields` writes it.
#![tactic(auto)]

pub mod check;
pub mod query;
mod scan;
mod starts;
pub mod write;
