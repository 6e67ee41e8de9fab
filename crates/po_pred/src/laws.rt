// Laws of predicates: their order, and that there are finitely many.
ghost use Rattle.std.specs.Prelude.{◌≡◌, ◌↔◌, ℕ, IsTrue};
ghost use Rattle.std.specs.List.{Contains};
ghost use Rattle.std.specs.Ordering.{eq_by_cmp};
ghost use Rattle.po_pred.specs.Finite.{IsOver, predicates_over};
ghost use Rattle.po_pred.specs.Order.{IsOrder, pred_cmp};
ghost use Rattle.po_pred.specs.OrderLaws.{pred_order, equal_are_same};
ghost use Rattle.po_pred.specs.View.{view_of};
ghost use Rattle.po_pred.specs.declared.pred.Pred.{Pred};

/// The comparison of predicates is an order of them all. It does nothing.
pub fn predicates_are_ordered()
    ensures { IsOrder pred_cmp }
{}

/// Predicates that compare equal are the same. It does nothing.
pub fn equal_predicates_are_same()
    ensures { (p q : Pred) → IsTrue (eq_by_cmp pred_cmp p q) ↔ (p ≡ q) }
{}

/// Predicates of which all parts are the same are the same. It does nothing.
pub fn views_tell_predicates_apart()
    ensures { (p q : Pred) → view_of p ≡ view_of q → p ≡ q }
{}

/// The predicates over so many parameters whose numbers are bounded are finitely many: each is in one list, which the
/// number of parameters gives. It does nothing.
pub fn bounded_predicates_are_listed()
    ensures { (params : ℕ) (p : Pred) → IsOver params p → Contains (predicates_over params) p }
{}
