// What an analysis found.
use crate::obl::{Obl, Verdict};
use po_base::{FunNo, List};

/// What an analysis found.
#[derive(Debug, Drop)]
pub struct Report<P, N> {
    /// Each obligation with its verdict, ascending in the obligation.
    pub lines: List<(Obl<P>, Verdict<P, N>)>,
    /// Each predicate with which a function is assumed to be entered, ascending.
    pub assumptions: List<(FunNo, P)>,
}
