//! The types of C.
#![tactic(auto)]

mod compare;
mod converting;
mod ctype;
mod env;
mod format;
mod integers;
mod kinds;
mod laws;
mod laying;
mod layout;
mod shared;
mod sizes;
mod spelling;
mod table;

pub use compare::same;
pub use converting::{composite, decayed};
pub use ctype::CType;
pub use env::Env;
pub use format::{Spec, format_of};
pub use integers::{
    BOOL, CHAR, common, difference_type, int_bytes, most_bytes, promoted, size_type, word_bytes,
};
pub use kinds::{elements, integer, is_void, pointee, signature, structure};
pub use laws::{
    common_type_is_symmetric, format_is_one, layout_is_one, promotion_keeps_numbers,
    spelling_is_one,
};
pub use laying::lay_out;
pub use layout::{Extent, Layout};
pub use shared::Shared;
pub use sizes::{align_of, as_object, layout_of, size_of};
pub use spelling::spell_type;
pub use table::Table;
