//! The readers of those parts of a declaration that hold no declaration themselves: stars, sizes of arrays, specifiers of one word or a
//! tag, and whole enumerations (C99 6.7).
//!
//! From below: constants before an end (`constants`); stars and sizes (`stars`, `sizes`); enumerators and specifiers (`enumerators`,
//! `specifiers`); the laws (`laws`). What stands at a place is told by `po_exp_parts`.
#![tactic(auto)]

mod constants;
mod enumerators;
mod laws;
mod sizes;
mod specifiers;
mod stars;

pub use constants::constant_at;
pub use enumerators::{Enumeration, enumerators_at};
pub use laws::{enumerators_are_one, sizes_are_all_sizes, specifier_is_first, stars_are_all_stars};
pub use po_exp_parts::ranges::{name_at, stands};
pub use po_exp_parts::seen::Seen;
pub use sizes::sizes_at;
pub use specifiers::{Found, opening_at, specifier_at};
pub use stars::stars_at;
