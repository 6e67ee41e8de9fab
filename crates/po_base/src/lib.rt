//! What every crate of cproof stands on: numbers for the parts of a project, operands and operators,
//! lists and texts that contracts see as lists, tokens and positions, and the word for want of memory.
#![tactic(auto)]

mod boxed;
mod list;
mod memory;
mod numbers;
mod operand;
mod operators;
mod ord_list;
mod out;
mod roomy;
mod shared_list;
mod spot;
mod text;
mod token;

pub use boxed::Boxed;
pub use list::List;
pub use memory::Memory;
pub use numbers::{FileNo, FunNo, GlobalNo, LibNo, NodeNo, RegNo, SlotNo, StrNo};
pub use operand::Opnd;
pub use operators::{Op, UnOp};
pub use ord_list::OrdList;
pub use out::Out;
pub use roomy::Roomy;
pub use shared_list::SharedList;
pub use spot::Spot;
pub use text::Text;
pub use token::{Token, TokenKind, Tokens};
