//! Laws by which a reader of statements goes from part to part, with room for so many statements on a path (C99 6.8).
//!
//! The laws are public functions with an empty body, whose contract is the law (`laws`).
#![tactic(auto)]

mod laws;

pub use laws::{
    a_brace_ends_a_block, a_statement_reads_on_behind_its_start, items_are_read_one_by_one,
    no_statement_is_read_without_room, one_item_is_read, one_list_is_read, one_statement_is_read,
};
