//! Which tokens of a tree are the heads of its expressions, the keywords of its statements, the Words of its declarators and the braces
//! that close its blocks.
#![tactic(auto)]

mod laws;

pub use laws::{
    counted_expressions_are_those_inside, expressions_have_heads, heads_are_counted, heads_stand,
    keywords_are_counted, keywords_stand, tokens_are_printed, words_stand,
};
