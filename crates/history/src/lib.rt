// The history: edits with their contexts, checkout, delta between versions, delta applier.
//
// Definitions are in specs/, on units: Edit says what an edit and a history are, Version when a version is held and closed, Checkout what a version shows,
// Arrive what an edit does, Tree the same with no scan by the walk of the Fugue tree, Deltas and Apply the change between versions, Valid a well-formed
// history (15), Codes the number of every call, and Rows document 01's rows, computed.
// Demand says demand 3 in its own words, and ByCalls what a history made by calls is.
//
// Theorems are in proofs/: Demand is demand 3 (`demand3`, `orders_agree`), Witness that its premises can be met, Histories what holds of every history made
// by calls: its list is the walk (`is_walk`), 15 and 12 are never given, delete counts stay within i16. On the way: Plain, what of a unit never changes; Run,
// the invariant; Arrive, that an arrival keeps it; Compare, that two histories show the same units in a version that both hold; Converge and OnUnits, demand 3
// on units; Sets, from the demand's conditions to clocks; Valid, Codes, Stored, from units to what is stored and to refusal numbers. ArriveValid, StaysValid
// and Runs say that a valid history stays valid, whoever made it, and a run of edits too. docs/ARCHITECTURE.md has every file by what it carries.

#![tactic(auto)]
