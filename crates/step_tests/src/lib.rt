//! Tests of steps of runs (`po_step`).
#![tactic(auto)]

#[cfg(test)]
mod bodies;
#[cfg(test)]
mod building;
#[cfg(test)]
mod checking;
#[cfg(test)]
mod quiet;
#[cfg(test)]
mod reports;
#[cfg(test)]
mod runs;
