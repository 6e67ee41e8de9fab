//! The types of compound expressions over operands whose types are known (C99 6.5): assignment, casts, subscripts, members, operators, calls and what is printed.
#![tactic(auto)]

mod assigning;
mod calling;
mod joining;
mod laws;
mod members;
mod printing;
mod promoting;

pub use assigning::{assigns, casts};
pub use calling::callee;
pub use joining::{compounds, joins};
pub use laws::typings_are_of_parts;
pub use members::{has_arrow_member, has_member, subscripts};
pub use printing::prints_as;
pub use promoting::promotes;
