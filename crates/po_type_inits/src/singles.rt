// Initialisers of one expression.
ghost use Rattle.std.specs.Prelude.{◌≡◌, MatchOption};
ghost use Rattle.po_tree.specs.declared.expression.Exp.{Exp as Tree};
ghost use Rattle.po_tree.specs.declared.declaration.Init.{out-Init};
ghost use Rattle.po_tree.specs.declared.declaration.Init.TheOpen.{Init-F};
ghost use Rattle.po_type_inits.specs.Initialising.{IsSingle};

use po_tree::{Exp, Init};

/// The expression, where an initialiser has no braces.
fn value(initialiser: &Init) -> Option<&Exp>
    ensures { MatchOption result ((x : Tree) → out-Init initialiser.now ≡ Init-F.One x → ⊥) (λ x. out-Init initialiser.now ≡ Init-F.One x.now) }
{
    match initialiser {
        Init::One(x) => Some(x),
        Init::Many(_, _) => None,
    }
}

/// The expression, where an initialiser is one, perhaps in one pair of braces (C99 6.7.8p11, p14). None exactly where it isn't. Constant time.
pub fn single(initialiser: &Init) -> Option<&Exp>
    ensures { MatchOption result ((x : Tree) → IsSingle (out-Init initialiser.now) x → ⊥) (λ x. IsSingle (out-Init initialiser.now) x.now) }
{
    match initialiser {
        Init::One(x) => Some(x),
        Init::Many(items, _) => {
            let inside = items.as_slice();
            if inside.len() != 1 {
                return None;
            }
            value(&inside[0])
        }
    }
}
