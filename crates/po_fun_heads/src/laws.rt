// The law of heads: there is one (C99 6.9.1).
ghost use Rattle.std.specs.Prelude.{ℕ, ◌≡◌, List as Sequence};
ghost use Rattle.po_tree.specs.declared.expression.Declarator.{Declarator as Declared};
ghost use Rattle.po_tree.specs.declared.expression.Specifier.{Specifier as Spec};
ghost use Rattle.po_tree.specs.Signs.{Sign};
ghost use Rattle.po_fun_heads.specs.Heads.{HeadStands};

/// Of two heads at the front of the same signs one is the other (C99 6.9.1), with the typedef names in force in the body and the signs behind its
/// brace.
pub fn heads_are_one()
    ensures { (types inside within : Sequence (Sequence ℕ)) (signs left rest : Sequence Sign) (specs others : Sequence Spec) (d e : Declared) → HeadStands types signs specs d inside left → HeadStands types signs others e within rest → (specs ≡ others) × (d ≡ e) × (inside ≡ within) × (left ≡ rest) }
{}
