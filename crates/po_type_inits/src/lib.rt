//! What the initialisers of scalars ask of an expression whose type is known (C99 6.7.8).
#![tactic(auto)]

mod laws;
mod scalars;
mod singles;

pub use laws::typings_of_scalars;
pub use scalars::{initialises_scalar, is_scalar};
pub use singles::single;
