//! Facts on lists, orders, options, answers and numbers in general, for the proofs of the crates above. It has no code.
#![tactic(auto)]
