//! The trees of C: expressions, declarations, statements and function definitions, what each of them prints, and which
//! of them are well formed.
#![tactic(auto)]

mod declaration;
mod dropping;
mod dropping_initialisers;
mod expression;
mod function;
mod laws;
mod names;
mod operator;
mod statement;

pub use declaration::{Decl, Init, InitParts};
pub use expression::{Declarator, Exp, Member, Param, Specifier, Suffix, TypeName};
pub use function::FunTree;
pub use laws::{names_behind, names_count_as_a_set};
pub use names::Names;
pub use operator::{Infix, Postfix, Prefix, Selector};
pub use statement::{First, Stmt};
