//! The definitions of the Unicode and Encoding Standards that the contracts of all crates cite, in `specs/`, and the
//! lemmas about them, in `proofs/`. There is no code here.
#![tactic(auto)]
