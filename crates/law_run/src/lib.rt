//! Theorems on whole runs of elfkit: what a run keeps of the files that it reads, as theorems on
//! `run`, and as clauses of calls that run it. Their statements are in `specs/`, the lemmas that
//! prove them in `proofs/`.
#![tactic(auto)]

pub mod laws;
pub mod runs;
