//! Tests of the types of C (`po_types`).
#![tactic(auto)]

#[cfg(test)]
mod conversions;
#[cfg(test)]
mod formats;
#[cfg(test)]
mod spellings;
#[cfg(test)]
mod types;
