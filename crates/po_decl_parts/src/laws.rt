// Laws of the parts of declarations: they are read exactly where they are printed.
ghost use Rattle.std.specs.Prelude.{ℕ, ◌≡◌, ◌≤◌, ◌∷◌, ◌++◌, ◌↔◌, Bool, Option as Maybe, List as Sequence};
ghost use Rattle.po_tree.specs.declared.expression.Exp.{Exp as Tree};
ghost use Rattle.po_tree.specs.declared.expression.Specifier.{Specifier as Spec};
ghost use Rattle.po_tree.specs.Expressions.{Typed};
ghost use Rattle.po_tree.specs.Declarations.{Specs};
ghost use Rattle.po_tree.specs.Heights.{specifier_height};
ghost use Rattle.po_tree.specs.Printing.{flat_specifier};
ghost use Rattle.po_tree.specs.Signs.{Sign, brace};
ghost use Rattle.po_exp_parts.specs.Places.{Begins};
ghost use Rattle.po_decl_parts.specs.Enumerators.{EnumeratorsRead};
ghost use Rattle.po_decl_parts.specs.Printed.{StarsPrinted, SizesPrinted, EnumeratorsPrinted, SpecifierPrinted, BeginsSpecifiers, HasMembers};
ghost use Rattle.po_decl_parts.specs.Sizes.{SizesRead};
ghost use Rattle.po_decl_parts.specs.Specifiers.{SpecifierStands};
ghost use Rattle.po_exp_parts.specs.Stars.{StarsRead};

/// Stars are read exactly where they are well formed, printed, and all that stand there; of two readings one is the other.
pub fn stars_are_all_stars()
    ensures printed { (signs left : Sequence Sign) (stars : Sequence (Sequence (Sequence ℕ))) → StarsRead signs stars left ↔ StarsPrinted signs stars left }
    ensures one { (signs left rest : Sequence Sign) (stars others : Sequence (Sequence (Sequence ℕ))) → StarsRead signs stars left → StarsRead signs others rest → (stars ≡ others) × (left ≡ rest) }
{}

/// Sizes are read exactly where they are well formed, printed, and all that stand there; of two readings one is the other.
pub fn sizes_are_all_sizes()
    ensures printed { (types : Sequence (Sequence ℕ)) (signs left : Sequence Sign) (sizes : Sequence (Maybe Tree)) → SizesRead types signs sizes left ↔ SizesPrinted types signs sizes left }
    ensures one { (types : Sequence (Sequence ℕ)) (signs left rest : Sequence Sign) (sizes others : Sequence (Maybe Tree)) → SizesRead types signs sizes left → SizesRead types signs others rest → (sizes ≡ others) × (left ≡ rest) }
{}

/// Enumerators are read exactly where they are well formed and printed with the brace behind them; of two readings one is the other.
pub fn enumerators_are_one()
    ensures printed { (types : Sequence (Sequence ℕ)) (signs left : Sequence Sign) (items : Sequence (Sequence ℕ × Maybe Tree)) (more : Bool) (behind : Sequence (Sequence ℕ)) → EnumeratorsRead types signs items more behind left ↔ EnumeratorsPrinted types signs items more behind left }
    ensures one { (types : Sequence (Sequence ℕ)) (signs left rest : Sequence Sign) (items others : Sequence (Sequence ℕ × Maybe Tree)) (more further : Bool) (behind after : Sequence (Sequence ℕ)) → EnumeratorsRead types signs items more behind left → EnumeratorsRead types signs others further after rest → (items ≡ others) × (more ≡ further) × (behind ≡ after) × (left ≡ rest) }
{}

/// A specifier that is read is printed there, and with what may follow it it is one of a declaration's; the first of a declaration's
/// specifiers is read, where it has no members and no brace follows; of two readings one is the other.
pub fn specifier_is_first()
    ensures printed { (outer free : Bool) (types : Sequence (Sequence ℕ)) (seen : Typed) (signs : Sequence Sign) (spec : Spec) (still : Bool) (behind : Sequence (Sequence ℕ)) (now : Typed) (left : Sequence Sign) → SpecifierStands outer free types seen signs spec still behind now left → SpecifierPrinted outer free types seen signs spec still behind now left }
    ensures reads { (outer free : Bool) (types last : Sequence (Sequence ℕ)) (seen sort : Typed) (signs left : Sequence Sign) (spec : Spec) (rest : Sequence Spec) → Specs outer free types seen (spec ∷ rest) last sort → specifier_height spec ≤ 256 → signs ≡ flat_specifier spec ++ left → (Begins brace left → ⊥) → (HasMembers spec → ⊥) → BeginsSpecifiers outer free types seen signs spec left rest last sort }
    ensures one { (outer free : Bool) (types : Sequence (Sequence ℕ)) (seen : Typed) (signs : Sequence Sign) (spec other : Spec) (still yet : Bool) (behind after : Sequence (Sequence ℕ)) (now sort : Typed) (left rest : Sequence Sign) → SpecifierStands outer free types seen signs spec still behind now left → SpecifierStands outer free types seen signs other yet after sort rest → (spec ≡ other) × (still ≡ yet) × (behind ≡ after) × (now ≡ sort) × (left ≡ rest) }
{}
