// A question to the definitions: specs/Lib.antt has it, README.md says how to ask another. This crate has no program.
#![tactic(auto)]
