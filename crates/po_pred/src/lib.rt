//! Predicates on the values at a node of a graph: what is asked there and what a function may assume. Their order,
//! their weight and their spelling, and arguments put in the places of parameters.
#![tactic(auto)]

mod hashing;
mod laws;
mod order;
mod pred;
mod spelling;
mod substitution;
mod view;
mod weights;

pub use laws::{
    bounded_predicates_are_listed, equal_predicates_are_same, predicates_are_ordered,
    views_tell_predicates_apart,
};
pub use pred::{Atom, Over, Place, Pred, Rule, Why};
pub use spelling::spell;
pub use substitution::subst;
pub use weights::weight;
