//! What the graph depends on in types: how values are held, read, written and converted, and which instruction combines two.
#![tactic(auto)]

mod changes;
mod instrs;
mod kinds;
mod numbers;
mod sizes;

pub use changes::{Conversion, change};
pub use instrs::{combines, steps, store};
pub use kinds::{is_address, is_scalar, is_struct, is_void, referenced, register_type, tested};
pub use numbers::{fits, is_kept};
pub use sizes::{access_of, align, size};
