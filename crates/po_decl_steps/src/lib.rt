//! How a declaration is read step by step, with struct bodies and parameter lists nested without a limit (C99 6.7): what was read so far,
//! what goes on from there to a whole declaration, and that each step keeps it.
//!
//! From below: what was read so far (`levels`); the laws of the steps (`laws`).
#![tactic(auto)]

mod laws;
mod levels;

pub use laws::{
    a_body_opens, a_comma_wants_a_declarator, a_declaration_ends_behind_its_parts, a_list_opens,
    a_specifier_is_read, a_whole_declaration_ends, a_word_is_in_force_behind_its_declarator,
    an_empty_list_ends_a_declarator, initialisers_are_read, members_follow_one_another,
    nothing_else_follows_declarators, nothing_else_follows_specifiers,
    nothing_else_is_a_declarator, nothing_read_is_completed, parameters_follow_one_another,
    sizes_end_a_declarator, specifiers_are_complete, stars_are_read, words_are_read,
    words_may_be_missing,
};
pub use levels::{Focus, Level, Owner};
