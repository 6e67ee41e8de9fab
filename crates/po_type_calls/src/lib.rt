//! What calls ask of their arguments, whose types are known (C99 6.5.2.2): parameters one by one, and what the format of `printf` reads.
#![tactic(auto)]

mod calling;
mod laws;
mod passing;
mod printing;
mod reading;

pub use calling::{Called, calls};
pub use laws::typings_of_calls;
pub use passing::passes;
pub use printing::prints;
pub use reading::formats;
