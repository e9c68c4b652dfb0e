// The history in lent bytes: its spans in a rope's store, its edits with their contexts, and the target ranges of its deletes. What the bytes say is
// `history_in`, a history of crate history's definitions. Inner functions take rows from the header on, and require what the entries asked.
#![tactic(auto)]

pub mod act;
pub mod arrive;
pub mod check;
pub mod checkout;
pub mod columns;
pub mod delta;
pub mod fits;
pub mod held;
pub mod look;
pub mod measure;
pub mod open;
pub mod query;
pub mod range;
pub mod refuse;
pub mod restate;
pub mod row;
pub mod run;
pub mod same;
pub mod seen;
pub mod stand;
pub mod take;
pub mod taken;
pub mod targets;
pub mod used;
pub mod version;
