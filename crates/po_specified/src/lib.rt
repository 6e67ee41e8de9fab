//! What specifiers and the stars of a declarator say by themselves, whatever is in force: words, types of words, pointers.
#![tactic(auto)]

mod declarators;
mod word_types;
mod words;

pub use declarators::{can_be_starred, restrict_fits, starred};
pub use word_types::word_type;
pub use words::{has_word, is_plain_word, only_words, the_other};
