//! What the typing of C's declarations and definitions is: the relation between a tree, what is in force, and the type of each expression.
#![tactic(auto)]

mod laws;
mod typed;

pub use laws::{
    argument_typing_is_one, assignment_typing_is_one, constant_value_is_one,
    declaration_has_one_environment, declarations_keep_founded, definition_has_one_typing,
    definitions_keep_founded, expression_typing_is_one, first_context_is_founded,
    initialiser_typing_is_one, named_type_is_one, operand_typing_is_one,
    shown_environment_is_well_founded, specified_type_is_one, statement_typing_is_one,
};
pub use typed::TypedFun;
