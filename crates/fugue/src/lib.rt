// The scan is the walk: why every lane orders the rules alike. No functions; definitions are in specs/, theorems in proofs/.
//
// The rope places a new unit by a scan (rope, specs/Place). The paper, "The Art of the Fugue", and 01 order units by the walk of a tree
// (specs/Tree). Here it is proved that on the lists that a history makes the two are one. Units are the rope's own: spans of length 1.
//
// The idea: give each unit the path from the root of the tree down to it, a list of steps to a left or a right child with its id. The
// walk is the order of these path keys (Order, Keys). It obeys four local laws (Hang): a unit is after its origin left and before its
// parent right (F0), parent rights do not cross (F1), origin lefts do not cross (F2), siblings lie by id (F3). From these alone the scan
// ends exactly at the new unit's place (ScanPlace, tied to the computed rule by Tests and Insert).
//
// One invariant, `Good` (Insert), says that the keys rise along the list. The rope's insert keeps it (Grow, Cursor, Range; `insert_good` in
// InsertGood, with the keys of NewKeys); statuses do not occur in it (Alike); and a good list is the walk of its units (`good_is_walk` in
// Walk, Sorts). A list with rising keys is decided by its members (`sorted_unique`): so arrival orders cannot matter. Origins and targets
// depend on the units that are not future alone (Past), so what is concurrent cannot change an edit.
//
// Clocks speaks of arrival orders without lists, Counting and Splices of lists; crate history puts all of it together.

#![tactic(auto)]
