// Whether two obligations are the same.
ghost use Rattle.std.specs.Prelude.{◌≡◌, ◌↔◌, IsTrue};

use po_core::{Cause, Obl, Rulebook};

/// Whether two predicates are the same.
pub(crate) fn is_same_pred<R: Rulebook>(book: &R, p: R::Pred, q: R::Pred) -> bool
    ensures { IsTrue result ↔ (p ≡ q) }
{
    let _book = book;
    p == q
}

/// Whether two causes are the same.
fn is_same_cause<R: Rulebook>(book: &R, a: &Cause<R::Pred>, b: &Cause<R::Pred>) -> bool
    ensures { IsTrue result ↔ (a.now ≡ b.now) }
{
    match (a, b) {
        (Cause::Primary(i), Cause::Primary(j)) => *i == *j,
        (Cause::Support(p), Cause::Support(q)) => is_same_pred(book, *p, *q),
        _ => false,
    }
}

/// Whether two obligations are the same.
pub(crate) fn is_same<R: Rulebook>(book: &R, a: &Obl<R::Pred>, b: &Obl<R::Pred>) -> bool
    ensures { IsTrue result ↔ (a.now ≡ b.now) }
{
    if a.fun == b.fun && a.node == b.node {
        return is_same_cause(book, &a.cause, &b.cause);
    }
    false
}
