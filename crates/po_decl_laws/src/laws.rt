// Laws of declarations: tokens are those of one at most (C99 6.7).
ghost use Rattle.std.specs.Prelude.{ℕ, ◌≡◌, ◌≤◌, ◌∷◌, ◌++◌, map, flat_map, Bool, Option as Maybe, List as Sequence};
ghost use Rattle.po_tree.specs.declared.declaration.Decl.{Decl as Declaration};
ghost use Rattle.po_tree.specs.declared.expression.Declarator.{Declarator};
ghost use Rattle.po_tree.specs.declared.expression.Specifier.{Specifier as Spec};
ghost use Rattle.po_tree.specs.Expressions.{Typed};
ghost use Rattle.po_tree.specs.Declarations.{Specs, IsDeclarator, IsParameter, Declared, IsDeclaration};
ghost use Rattle.po_tree.specs.Heights.{declarator_height, decl_height};
ghost use Rattle.po_tree.specs.Printing.{flat_specifier, flat_declarator, flat_decl};
ghost use Rattle.po_tree.specs.Signs.{Sign};
ghost use Rattle.po_decl_parts.specs.Specifiers.{NoSpecifier, Opens};
ghost use Rattle.po_decl_laws.specs.Fronts.{EndsSpecifiers, EndsDeclarator, EndsParameter};
ghost use Rattle.po_decl_laws.specs.Parts.{specs_height};

/// What may stand behind the specifiers of a declaration, where `types` are the typedef names in force, begins no specifier and no body of a
/// struct. A declarator may stand there, and so may a parameter's, of which nothing need be written but what stands behind it.
pub fn specifiers_end()
    ensures no_specifier { (outer free : Bool) (types : Sequence (Sequence ℕ)) (seen : Typed) (signs : Sequence Sign) → EndsSpecifiers types seen signs → NoSpecifier outer free types seen signs }
    ensures no_body { (types : Sequence (Sequence ℕ)) (seen : Typed) (signs left : Sequence Sign) (tag : Maybe (Sequence ℕ)) → EndsSpecifiers types seen signs → Opens signs tag left → ⊥ }
    ensures declarators { (types inner : Sequence (Sequence ℕ)) (seen : Typed) (name : Sequence ℕ) (d : Declarator) (left : Sequence Sign) → IsDeclarator types seen name d inner → EndsSpecifiers types seen (flat_declarator d ++ left) }
    ensures parameters { (types inner : Sequence (Sequence ℕ)) (seen : Typed) (d : Declarator) (left : Sequence Sign) → IsParameter types seen d inner → EndsParameter left → EndsSpecifiers types seen (flat_declarator d ++ left) }
{}

/// Of two lists of specifiers at the front of the same signs, behind each of which stands what may, one is the other; and so with the typedef
/// names behind them, bodies of structs and enumerators included.
pub fn specifiers_are_one()
    ensures { (outer free : Bool) (types behind after : Sequence (Sequence ℕ)) (seen now sort : Typed) (specs others : Sequence Spec) (left rest : Sequence Sign) → Specs outer free types seen specs behind now → Specs outer free types seen others after sort → specs_height specs ≤ 256 → specs_height others ≤ 256 → flat_map flat_specifier specs ++ left ≡ flat_map flat_specifier others ++ rest → EndsSpecifiers behind now left → EndsSpecifiers after sort rest → (specs ≡ others) × (behind ≡ after) × (now ≡ sort) × (left ≡ rest) }
{}

/// Of two declarators at the front of the same signs, behind each of which stands what may, one is the other, with the typedef names in force at
/// the end of its parameters; and so of two declarators of parameters.
pub fn declarators_are_one()
    ensures declarators { (types behind after : Sequence (Sequence ℕ)) (seen : Typed) (name other : Sequence ℕ) (d e : Declarator) (left rest : Sequence Sign) → IsDeclarator types seen name d behind → IsDeclarator types seen other e after → declarator_height d ≤ 256 → declarator_height e ≤ 256 → flat_declarator d ++ left ≡ flat_declarator e ++ rest → EndsDeclarator left → EndsDeclarator rest → (d ≡ e) × (behind ≡ after) × (left ≡ rest) }
    ensures parameters { (types behind after : Sequence (Sequence ℕ)) (seen : Typed) (d e : Declarator) (left rest : Sequence Sign) → IsParameter types seen d behind → IsParameter types seen e after → declarator_height d ≤ 256 → declarator_height e ≤ 256 → flat_declarator d ++ left ≡ flat_declarator e ++ rest → EndsParameter left → EndsParameter rest → (d ≡ e) × (behind ≡ after) × (left ≡ rest) }
{}

/// Of two declarations at the front of the same signs one is the other, with the typedef names in force behind it: its semicolon ends it. Signs
/// are one piece of a file at most, a lone semicolon included.
pub fn one_declaration()
    ensures at_the_front { (types behind after : Sequence (Sequence ℕ)) (d e : Declaration) (left rest : Sequence Sign) → Declared types d behind → Declared types e after → decl_height d ≤ 256 → decl_height e ≤ 256 → flat_decl d ++ left ≡ flat_decl e ++ rest → (d ≡ e) × (behind ≡ after) × (left ≡ rest) }
    ensures whole { (types behind after : Sequence (Sequence ℕ)) (d e : Declaration) → IsDeclaration types d behind → IsDeclaration types e after → flat_decl d ≡ flat_decl e → (d ≡ e) × (behind ≡ after) }
{}
