// Laws of heads: which tokens of a tree its expressions and statements are known by, and where they stand.
ghost use Rattle.std.specs.Prelude.{ℕ, ◌≡◌, ◌<◌, ◌↔◌, Contains, List as Items, flat_map, length, slice_get, Some};
ghost use Rattle.po_tree.specs.declared.declaration.Decl.{Decl as Declaration};
ghost use Rattle.po_tree.specs.declared.expression.Declarator.{Declarator};
ghost use Rattle.po_tree.specs.declared.expression.Exp.{Exp as Expression};
ghost use Rattle.po_tree.specs.declared.function.FunTree.{FunTree as Definition};
ghost use Rattle.po_tree.specs.declared.statement.Stmt.{Stmt as Statement};
ghost use Rattle.po_tree.specs.Declarations.{IsPiece};
ghost use Rattle.po_tree.specs.Order.{decl_expressions, expressions, fun_expressions, stmt_expressions};
ghost use Rattle.po_tree.specs.Printing.{flat, flat_decl, flat_fun, flat_stmt, prints_star};
ghost use Rattle.po_tree.specs.Signs.{Sign};
ghost use Rattle.po_tree.specs.Statements.{IsFunction};
ghost use Rattle.po_heads.specs.Heads.{Ascends, HasHeads, fun_stops, head_places, head_sign, head_signs, heads, signs, stmt_stops, stop_places, stops};
ghost use Rattle.po_heads.specs.Inside as inside;
ghost use Rattle.po_heads.specs.Inside.{IsInside};
ghost use Rattle.po_heads.specs.Marks.{declared, marked, marked_decl, marked_declarator, marked_fun, marked_stmt};

/// The marked tokens of a tree, without their marks, are those that it prints.
pub fn tokens_are_printed()
    ensures expressions { (x : Expression) → signs (marked x) ≡ flat x }
    ensures declarations { (d : Declaration) → signs (marked_decl d) ≡ flat_decl d }
    ensures statements { (x : Statement) → signs (marked_stmt x) ≡ flat_stmt x }
    ensures definitions { (g : Definition) → signs (marked_fun g) ≡ flat_fun g }
{}

/// The tokens that are marked as heads are, in their order, the heads of the expressions of a tree, in the order in which they are counted: one
/// for each, also inside type names, sizes, enumerators and initialisers. Only a row of no strings has none.
pub fn heads_are_counted()
    ensures expressions { (x : Expression) → heads (marked x) ≡ head_signs (expressions x) }
    ensures declarations { (d : Declaration) → heads (marked_decl d) ≡ head_signs (decl_expressions d) }
    ensures statements { (x : Statement) → heads (marked_stmt x) ≡ head_signs (stmt_expressions x) }
    ensures definitions { (g : Definition) → heads (marked_fun g) ≡ head_signs (fun_expressions g) }
{}

/// The expressions that are counted in a tree are just those inside it: the tree itself, where it is an expression, and those inside its parts,
/// through statements, declarations, initialisers, specifiers with their members and enumerators, declarators, parameters and type names. It does
/// nothing.
pub fn counted_expressions_are_those_inside()
    ensures expressions { (x y : Expression) → Contains (expressions x) y ↔ IsInside y (inside.expression x) }
    ensures declarations { (d : Declaration) (y : Expression) → Contains (decl_expressions d) y ↔ IsInside y (inside.declaration d) }
    ensures statements { (x : Statement) (y : Expression) → Contains (stmt_expressions x) y ↔ IsInside y (inside.statement x) }
    ensures definitions { (g : Definition) (y : Expression) → Contains (fun_expressions g) y ↔ IsInside y (inside.definition g) }
{}

/// Each expression of a well-formed declaration, and of a well-formed definition, has a head: none is a row of no strings.
pub fn expressions_have_heads()
    ensures declarations { (types behind : Items (Items ℕ)) (d : Declaration) → IsPiece types d behind → HasHeads (decl_expressions d) }
    ensures definitions { (types : Items (Items ℕ)) (g : Definition) → IsFunction types g → HasHeads (fun_expressions g) }
{}

/// The k-th expression of a definition has the k-th place of a head, and there stands the head that its form has. The places ascend, and lie in
/// the definition.
pub fn heads_stand()
    ensures counted { (g : Definition) → HasHeads (fun_expressions g) → length (head_places g) ≡ length (fun_expressions g) }
    ensures stands { (g : Definition) → HasHeads (fun_expressions g) → (k : ℕ) (x : Expression) → slice_get (fun_expressions g) k ≡ Some x → (n : ℕ) × (slice_get (head_places g) k ≡ Some n) × (slice_get (flat_fun g) n ≡ Some (head_sign x)) }
    ensures ascend { (g : Definition) → Ascends (head_places g) }
    ensures lie_within { (g : Definition) (k n : ℕ) → slice_get (head_places g) k ≡ Some n → n < length (flat_fun g) }
{}

/// The tokens that are marked as keywords or as ends of blocks are, in their order, the keyword of each statement before those of its parts, and
/// the closing brace of each block behind those of its items.
pub fn keywords_are_counted()
    ensures statements { (x : Statement) → stops (marked_stmt x) ≡ stmt_stops x }
    ensures definitions { (g : Definition) → stops (marked_fun g) ≡ fun_stops g }
{}

/// The k-th keyword or end of a block has the k-th place of these, and stands there in the tokens of the definition. The places ascend, and lie
/// in the definition.
pub fn keywords_stand()
    ensures counted { (g : Definition) → length (stop_places g) ≡ length (fun_stops g) }
    ensures stands { (g : Definition) (k : ℕ) (s : Sign) → slice_get (fun_stops g) k ≡ Some s → (n : ℕ) × (slice_get (stop_places g) k ≡ Some n) × (slice_get (flat_fun g) n ≡ Some s) }
    ensures ascend { (g : Definition) → Ascends (stop_places g) }
    ensures lie_within { (g : Definition) (k n : ℕ) → slice_get (stop_places g) k ≡ Some n → n < length (flat_fun g) }
{}

/// The Word of a declarator stands behind its stars, and is marked so.
pub fn words_stand()
    ensures { (d : Declarator) (name : Items ℕ) → d.name ≡ Some name → slice_get (marked_declarator d) (length (flat_map prints_star d.stars)) ≡ Some (declared name) }
{}
