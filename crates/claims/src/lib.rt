// What follows from document 01's rules: specs/ states it, proofs/ proves it. This crate has no program.
#![tactic(auto)]
