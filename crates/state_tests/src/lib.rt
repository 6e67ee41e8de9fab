//! Tests of bases, filled bytes and states: rows of a few tables, whose answers come from the rules.
#![tactic(auto)]

#[cfg(test)]
mod bases;
#[cfg(test)]
mod blocks;
#[cfg(test)]
mod rounding;
#[cfg(test)]
mod sample;
#[cfg(test)]
mod states;
