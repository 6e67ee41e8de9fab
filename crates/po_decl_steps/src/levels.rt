// What was read of a declaration so far.

use po_base::{List, Text};
use po_decl_parts::Seen;
use po_tree::{Declarator, Init, Member, Param, Specifier};

/// What specifiers begin, with what was read of it.
#[derive(Drop)]
pub enum Owner {
    /// A declaration: whether its words are typedef names, and its declarators so far.
    Declaration(bool, List<(Declarator, Option<Init>)>),
    /// A member of a struct: the struct's tag, the members before it, and its declarators so far.
    Member(Option<Text>, List<Member>, List<Declarator>),
    /// A parameter: the stars and the word of the declarator in whose list it stands, and the parameters before it.
    Param(List<List<Text>>, Option<Text>, List<Param>),
}

/// What was read of one declaration, member or parameter.
#[derive(Drop)]
pub struct Level {
    /// The specifiers so far.
    pub specs: List<Specifier>,
    /// Whether a storage class may still come.
    pub free: bool,
    /// The type specifiers so far.
    pub seen: Seen,
    pub owner: Owner,
}

/// What is wanted at a place.
#[derive(Drop)]
pub enum Focus {
    /// More specifiers, or what they begin.
    Specifiers,
    /// A declarator.
    Declarator,
    /// What stands behind this declarator.
    Behind(Declarator),
}
