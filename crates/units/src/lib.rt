// The rope's calls, on lists of units: placement, delete and update, the delta, the questions, when a store is well formed, and
// what each call answers. These are definitions (specs); crate rope has the code over lent bytes that is proved against them. Here stand the
// types that the definitions speak of, and what is decided on them alone.
#![tactic(auto)]

pub mod change;
pub mod diff;
pub mod place;
