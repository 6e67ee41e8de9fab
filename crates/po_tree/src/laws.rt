// Laws of the names in force.
ghost use Rattle.std.specs.Prelude.{ℕ, ◌↔◌, Contains, List as Items};
ghost use Rattle.po_tree.specs.declared.declaration.Decl.{Decl as Declaration};
ghost use Rattle.po_tree.specs.declared.expression.Exp.{Exp as Expression};
ghost use Rattle.po_tree.specs.declared.function.FunTree.{FunTree as Definition};
ghost use Rattle.po_tree.specs.Expressions.{IsExpression};
ghost use Rattle.po_tree.specs.Declarations.{IsDeclaration};
ghost use Rattle.po_tree.specs.Statements.{IsDefinition};
ghost use Rattle.po_tree.specs.NameSets.{AreSame};
ghost use Rattle.po_tree.specs.Scope.{IsTypeBehind};

/// The typedef names that a well-formed declaration leaves in force, one specifier and one declarator after the other, are those
/// that `Names::after` gives.
pub fn names_behind()
    ensures { (types behind : Items (Items ℕ)) (d : Declaration) → IsDeclaration types d behind → (name : Items ℕ) → Contains behind name ↔ IsTypeBehind types d name }
{}

/// Well-formedness asks only which typedef names are in force, and not in which order the list has them, or how often; and behind a
/// declaration the names are the same again.
pub fn names_count_as_a_set()
    ensures expressions { (types types' : Items (Items ℕ)) → AreSame types types' → (x : Expression) → IsExpression types x → IsExpression types' x }
    ensures declarations { (types types' : Items (Items ℕ)) → AreSame types types' → (d : Declaration) (behind : Items (Items ℕ)) → IsDeclaration types d behind → (behind' : Items (Items ℕ)) × IsDeclaration types' d behind' × AreSame behind behind' }
    ensures definitions { (types types' : Items (Items ℕ)) → AreSame types types' → (g : Definition) → IsDefinition types g → IsDefinition types' g }
{}
