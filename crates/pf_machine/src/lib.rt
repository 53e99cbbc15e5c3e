//! The lone machine: one namespace alone, with no pool, no frame and no neighbour. It has definitions, in `specs/`, and no
//! code: what a namespace is told is proved to be what they say. In `proofs/` stand worked examples of them, by
//! computation, and the lemmas on them that the crates above cite.
#![tactic(auto)]
