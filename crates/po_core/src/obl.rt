// Obligations, why they stand, and their verdicts.
use po_base::{FunNo, NodeNo};

/// Why an obligation stands at a node.
#[derive(Clone, Copy, Debug, PartialEq, Eq, PartialOrd, Ord, Hash)]
pub enum Cause<P> {
    /// The node's instruction asks for it: the place among the predicates that it asks for, from 0.
    Primary(u32),
    /// The node calls a function that was assumed to be entered with this predicate.
    Support(P),
}

/// An obligation: a predicate that has to hold whenever a node of a function is reached.
#[derive(Clone, Copy, Debug, PartialEq, Eq, PartialOrd, Ord, Hash)]
pub struct Obl<P> {
    pub fun: FunNo,
    pub node: NodeNo,
    pub cause: Cause<P>,
}

/// What was decided of an obligation.
#[derive(Clone, Copy, Debug, PartialEq, Eq)]
pub enum Verdict<P, N> {
    /// It holds, by this rule.
    Closed(N),
    /// It holds where its function is entered with this predicate.
    Delegated(P),
    /// Neither is known.
    Open,
}
