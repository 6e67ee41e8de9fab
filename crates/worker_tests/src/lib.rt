//! Tests of workers (`po_worker`) over a rulebook in small.
#![tactic(auto)]

#[cfg(test)]
mod gates;
#[cfg(test)]
mod ring;
#[cfg(test)]
mod workers;
