//! Tests of the crates at the bottom: lists and texts (`po_base`), whole numbers (`po_arith`), and files and sinks (`po_io`).
#![tactic(auto)]

#[cfg(test)]
mod lists;
#[cfg(test)]
mod numbers;
#[cfg(test)]
mod outside;
