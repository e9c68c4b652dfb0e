// The script of the lane program: one call a line, and its answer (docs/SCRIPT.md).
//
// `field` reads one field from a word, `version` the pairs of a context, `call` a whole line; `print` puts the fields of an answer into a lent buffer.
// Nothing here knows a store.
#![tactic(auto)]

pub mod call;
pub mod field;
pub mod print;
pub mod version;
