//! The parts of an expression that hold no expression themselves, and trees of parts that were found (C99 6.4, 6.5, 6.7.6).
//!
//! From below: levels of expressions, words, literals and operators (`levels`, `words`, `characters`, `literals`, `operators`, `continuation`); what stands
//! at a place of tokens and of a range of tokens (`places`, `ranges`); what was found at a place (`found`), and operands, tails and type names
//! that are made of it (`compounds`, `operands`, `tails`, `type_names`); operands of one token and strings (`leaves`); the words and stars of
//! a type name (`seen`, `type_words`, `stars`).
#![tactic(auto)]

pub mod characters;
mod compounds;
pub mod continuation;
pub mod found;
pub mod leaves;
pub mod levels;
pub mod literals;
pub mod operands;
pub mod operators;
pub mod places;
pub mod ranges;
pub mod seen;
pub mod stars;
pub mod tails;
pub mod type_names;
pub mod type_words;
pub mod words;
