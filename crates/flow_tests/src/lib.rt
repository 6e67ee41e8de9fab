//! Tests of flows and their least tables.
#![tactic(auto)]

#[cfg(test)]
mod sample;
#[cfg(test)]
mod tests;
