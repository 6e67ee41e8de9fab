//! Tests of the crates that say what a project means: what its nodes ask (`po_gen`).
#![tactic(auto)]

#[cfg(test)]
mod asked;
#[cfg(test)]
mod building;
#[cfg(test)]
mod freeing;
