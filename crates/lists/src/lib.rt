// Definitions and laws on lists that the other crates share, each once; the only code is the comparison of two slices.
//
// `specs/` has the definitions and `proofs/` their laws, by subject. No public function has a `requires`.
#![tactic(auto)]

mod slices;

pub use slices::equal;
