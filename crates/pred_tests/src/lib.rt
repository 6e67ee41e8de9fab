//! Tests of the crates that say what is asked and assumed: predicates (`po_pred`).
#![tactic(auto)]

#[cfg(test)]
mod predicates;
