// Document 01 as definitions: specs/ says what is right, in document 01's words and order. This crate has no program.
#![tactic(auto)]
