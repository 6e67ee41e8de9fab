//! Tokens and pieces of the text that a C preprocessor writes: the one division of a file's bytes into blanks,
//! comments, directives and tokens; the tokens that are kept; and the division of these into declarations.
#![tactic(auto)]

mod bytes;
mod closing;
mod directive;
mod effect;
mod extension;
mod keeping;
mod laws;
mod lexing;
mod nesting;
mod part;
mod part_kind;
mod position;
mod row;
mod shape;
mod sign;

pub use effect::Effect;
pub use extension::Extension;
pub use keeping::{Context, kept};
pub use laws::{
    balanced_brackets, comments_are_those_of_c, kept_are_selected, line_markers_are_read,
    line_markers_are_those_of_c, literals_are_those_of_c, literals_of_c_stand, longest_part_stands,
    one_division, one_failure, one_kept_list, one_piece_list, one_shape_failure, one_token_list,
    pieces_are_balanced, pieces_cover, pieces_or_failure, texts_stand_in_order, tokens_are_placed,
    tokens_or_failure,
};
pub use lexing::{LexFail, tokens};
pub use nesting::Open;
pub use part_kind::PartKind;
pub use position::Position;
pub use row::Row;
pub use shape::{Piece, ShapeFail, pieces};
