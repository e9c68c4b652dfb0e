// The delta applier (added by document 01): a list of units, each as its real id and a chunk of one unit, with a delta's entries applied to it.
//
// Entries come in columns of numbers, as get_diff of the rope fills them; lists are items in rows of 24 lent bytes. `delta::apply` is the applier, and
// `visible::visible_items` writes the list of a store that a delta is applied to. That get_diff, visible_items and apply together give the new visible
// list is proved of the three contracts (proofs/Composed), from the law on the definitions (proofs/DeltaApplies).
#![tactic(auto)]

mod columns;
pub mod delta;
pub mod given;
pub mod item;
pub mod visible;
