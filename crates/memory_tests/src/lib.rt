//! Tests of memory: loads, stores and kills (`po_memory`), and when predicates hold (`po_holds`).
#![tactic(auto)]

#[cfg(test)]
mod accesses;
#[cfg(test)]
mod holding;
