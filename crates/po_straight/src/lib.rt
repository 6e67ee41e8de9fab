//! The reader of files of straight integer functions: the part of C that cproof serves so far. From the bytes of
//! a file it gives the trees of its definitions `int NAME(PARAMETERS){return EXPRESSION;}`, exactly where the
//! bytes are such a file, and there is one reading at most. An expression may call the functions that are defined
//! before it and its own. The crate stands until the readers of whole C do.
//!
//! From below: bytes, words and signs (`letters`, `word`, `lexeme`, `lexing`); expressions and the names in them
//! (`names`, `scope`, `expression`, `read_expression`); definitions and the file (`definition`, `heading`, `body`,
//! `reading`).
#![tactic(auto)]

mod body;
mod definition;
mod expression;
mod heading;
mod letters;
mod lexeme;
mod lexing;
mod names;
mod read_expression;
mod reading;
mod scope;
mod word;

pub use definition::Definition;
pub use expression::{Expression, one_expression};
pub use lexeme::{Lexeme, Sign};
pub use lexing::spell_one_list;
pub use reading::{file_has_one_reading, read_definitions};
