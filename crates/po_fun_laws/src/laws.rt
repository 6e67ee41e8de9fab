// Laws of statements and definitions: tokens are those of one at most (C99 6.8, 6.9.1).
ghost use Rattle.std.specs.Prelude.{ℕ, ◌≡◌, ◌≤◌, ◌∷◌, ◌++◌, map, flat_map, List as Sequence};
ghost use Rattle.po_tree.specs.declared.declaration.Decl.{Decl as Declaration};
ghost use Rattle.po_tree.specs.declared.function.FunTree.{FunTree};
ghost use Rattle.po_tree.specs.declared.statement.Stmt.{Stmt as Statement};
ghost use Rattle.po_tree.specs.Declarations.{Declared};
ghost use Rattle.po_tree.specs.Heights.{stmt_height, fun_height, greatest};
ghost use Rattle.po_tree.specs.Printing.{flat_decl, flat_stmt, flat_fun};
ghost use Rattle.po_tree.specs.Signs.{Sign, brace_end};
ghost use Rattle.po_tree.specs.Statements.{IsStatement, AreItems, AreMarks, places_of, IsFunction, IsDefinition};
ghost use Rattle.po_fun_laws.specs.Endings.{EndsStatement};
ghost use Rattle.po_fun_laws.specs.Places.{AreSameTokens};

/// Of two statements at the front of the same signs, behind neither of which stands an `else` that would belong to it, one is the other (C99 6.8); and so of
/// two lists of statements and declarations before a closing brace.
pub fn statements_are_one()
    ensures statements { (types : Sequence (Sequence ℕ)) (s t : Statement) (left rest : Sequence Sign) → IsStatement types s → IsStatement types t → stmt_height s ≤ 256 → stmt_height t ≤ 256 → flat_stmt s ++ left ≡ flat_stmt t ++ rest → EndsStatement s left → EndsStatement t rest → (s ≡ t) × (left ≡ rest) }
    ensures items { (types : Sequence (Sequence ℕ)) (xs ys : Sequence Statement) (left rest : Sequence Sign) → AreItems types xs → AreItems types ys → greatest (map stmt_height xs) ≤ 256 → greatest (map stmt_height ys) ≤ 256 → flat_map flat_stmt xs ++ (brace_end ∷ left) ≡ flat_map flat_stmt ys ++ (brace_end ∷ rest) → (xs ≡ ys) × (left ≡ rest) }
{}

/// No statement stands where a declaration does (C99 6.8.2): a typedef name begins a declaration, but for a label of its name.
pub fn statements_begin_no_declaration()
    ensures { (types behind : Sequence (Sequence ℕ)) (s : Statement) (d : Declaration) (left rest : Sequence Sign) → IsStatement types s → Declared types d behind → flat_stmt s ++ left ≡ flat_decl d ++ rest → ⊥ }
{}

/// The names of files and the lines of a definition's tokens tell its marks and its names of files.
pub fn marks_are_one()
    ensures { (g h : FunTree) → AreMarks g → AreMarks h → places_of g ≡ places_of h → (g.marks ≡ h.marks) × (g.names ≡ h.names) }
{}

/// Of two definitions at the front of the same signs one is the other, but for its marks (C99 6.9.1). Tokens, with their files and lines, are those of
/// one well-formed definition at most.
pub fn one_definition()
    ensures at_the_front { (types : Sequence (Sequence ℕ)) (g h : FunTree) (left rest : Sequence Sign) → IsFunction types g → IsFunction types h → fun_height g ≤ 256 → fun_height h ≤ 256 → flat_fun g ++ left ≡ flat_fun h ++ rest → (g.specs ≡ h.specs) × (g.declarator ≡ h.declarator) × (g.body ≡ h.body) × (left ≡ rest) }
    ensures whole { (types : Sequence (Sequence ℕ)) (g h : FunTree) → IsDefinition types g → IsDefinition types h → AreSameTokens g h → g ≡ h }
{}

/// No tokens are those of a declaration and of a definition: one ends with a semicolon, the other with a brace.
pub fn no_declaration_is_a_definition()
    ensures { (d : Declaration) (g : FunTree) → flat_decl d ≡ flat_fun g → ⊥ }
{}
