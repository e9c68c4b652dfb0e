// The rope (000, crdt_rope.rs) over a list of spans in lent bytes. The bytes are a header and rows of one width (crate store); what they say
// is the list of spans, `spans_of`, and what that says is its list of units, `expand`. Entries take any bytes and any numbers: they ask `check`
// first, and every other refusal before they write. Inner functions take the rows from the header on, and require what the entries asked.
#![tactic(auto)]

pub mod apply;
pub mod change;
pub mod check;
pub mod clear;
pub mod delete;
pub mod diff;
pub mod edit;
pub mod exact;
pub mod find;
pub mod insert;
pub mod order;
pub mod place;
pub mod query;
pub mod report;
pub mod seek;
pub mod state;
pub mod stream;
pub mod update;
