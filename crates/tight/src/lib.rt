// How tight each answer is (document 01): wrong programs that the contracts shut out, by name, and one answer for each input. This crate has no program.
#![tactic(auto)]
