// Function definitions with the types of their expressions.
use po_base::List;
use po_tree::FunTree;
use po_types::CType;

/// A function definition with the type of each of its expressions, in the order of their heads among its tokens.
#[derive(Drop)]
pub struct TypedFun {
    pub tree: FunTree,
    /// The type of each expression.
    pub types: List<CType>,
    /// The type to which each expression is converted.
    pub conversions: List<CType>,
}
