//! Lemmas on lists and on tests that have nothing to do with instructions or regions, for the proofs of all crates.
//!
//! There is no code. `specs/Each` is a property of each member of a list. `proofs/Members` has what holds of each member, `proofs/Lists` what
//! holds of parts of lists, and `proofs/Tests` what computed tests say. `proofs/Offered` names all that other crates may use.
#![tactic(auto)]
