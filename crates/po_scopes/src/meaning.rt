// What identifiers and tags can mean.
use po_base::GlobalNo;
use po_types::CType;

/// How an object is stored (C99 6.2.4, 6.7.1).
#[derive(Clone, Copy, Debug, PartialEq, Eq)]
pub enum Storage {
    Automatic,
    Register,
    Static,
}

/// What an ordinary identifier means.
#[derive(Clone, Copy)]
pub enum Meaning<'a> {
    /// An object of the file, with its number.
    Global(&'a CType, GlobalNo),
    Function(&'a CType),
    /// A parameter, or an object of a block.
    Local(Storage, &'a CType),
    /// A typedef name, and whether its type is const.
    TypeName(&'a CType, bool),
    /// An enumerator, with its value.
    Constant(i128),
}

/// What an identifier means that is declared in a scope inside the file's: inside a function no typedef name and no function is declared.
#[derive(Drop)]
pub enum Local {
    /// A parameter, or an object of a block.
    Object(Storage, CType),
    /// An enumerator, with its value.
    Constant(i128),
}

/// What a tag stands for (C99 6.7.2.3).
#[derive(Clone, Copy, Debug, PartialEq, Eq)]
pub enum Tag {
    /// The struct of this number.
    Struct(u32),
    Enum,
}
