// Declarations and initialisers (C99 6.7, 6.7.8).
ghost use Rattle.po_tree.specs.DroppingInitialisers.{IsMadeOf};

use crate::dropping_initialisers::drop_initialisers;
use crate::expression::{Declarator, Exp, Specifier};
use po_base::List;

/// An initialiser (C99 6.7.8).
pub enum Init {
    One(Exp),
    /// `{x, y}`; true where a comma stands behind the last.
    Many(List<Init>, bool),
}

/// An initialiser taken apart.
#[derive(Drop)]
pub enum InitParts {
    /// An expression.
    Value(Exp),
    /// What stands in braces; true where a comma stands behind the last.
    Braces(List<Init>, bool),
}

impl Init {
    /// What the initialiser is made of, moved out.
    pub fn into_parts(self) -> InitParts
        ensures { IsMadeOf self result }
    {
        match self {
            Init::One(x) => InitParts::Value(x),
            Init::Many(inits, more) => InitParts::Braces(inits, more),
        }
    }
}

/// Braces inside are dropped in a loop, so that the stack doesn't grow with their nesting.
impl Drop for Init {
    #[cycle(dropping_initialisers)]
    fn drop(self) {
        match self {
            Init::One(x) => drop(x),
            Init::Many(inits, _) => drop_initialisers(inits),
        }
    }
}

/// A declaration (C99 6.7). A lone `;` at file level has two empty lists.
#[derive(Drop)]
pub struct Decl {
    pub specs: List<Specifier>,
    /// The declarators, each with its initialiser where there is one.
    pub parts: List<(Declarator, Option<Init>)>,
}
