// The laws of reading statements part by part.
ghost use Rattle.std.specs.Prelude.{ℕ, suc, ◌≡◌, ◌∷◌, [], ◌↔◌, List as Sequence};
ghost use Rattle.po_tree.specs.declared.statement.Stmt.{Stmt as Statement};
ghost use Rattle.po_tree.specs.Signs.{Sign, brace_end};
ghost use Rattle.po_exp_parts.specs.Places.{Begins};
ghost use Rattle.po_fun_parts.specs.declared.starts.Start.{Start as Begun};
ghost use Rattle.po_fun_parts.specs.Starting.{StatementStarts};
ghost use Rattle.po_stmt_laws.specs.Reading.{StatementReads, ItemsRead};
ghost use Rattle.po_stmt_laws.specs.Continuing.{ReadsOn, ItemReads, FirstItemReads};

/// Where a statement begins, it is read exactly where its other parts are read behind its start, with room for one statement less (C99 6.8). So an
/// `else` belongs to the nearest `if` (C99 6.8.4.1p3). It does nothing.
pub fn a_statement_reads_on_behind_its_start()
    ensures { (types : Sequence (Sequence ℕ)) (room : ℕ) (signs left rest : Sequence Sign) (begun : Begun) (s : Statement) → StatementStarts types signs begun left → StatementReads types (suc room) signs s rest ↔ ReadsOn types room begun left s rest }
{}

/// Each statement is one on its path, so without room none is read. It does nothing.
pub fn no_statement_is_read_without_room()
    ensures { (types : Sequence (Sequence ℕ)) (signs left : Sequence Sign) (s : Statement) → StatementReads types 0 signs s left → ⊥ }
{}

/// Of two statements that are read at the front of the same tokens one is the other, with the same tokens left, whatever room they have. It does
/// nothing.
pub fn one_statement_is_read()
    ensures { (types : Sequence (Sequence ℕ)) (room more : ℕ) (signs left rest : Sequence Sign) (s t : Statement) → StatementReads types room signs s left → StatementReads types more signs t rest → (s ≡ t) × (left ≡ rest) }
{}

/// A closing brace ends a block (C99 6.8.2): no item is read there. It does nothing.
pub fn a_brace_ends_a_block()
    ensures { (types : Sequence (Sequence ℕ)) (room : ℕ) (left rest : Sequence Sign) (xs : Sequence Statement) → ItemsRead types room (brace_end ∷ left) xs rest ↔ ((xs ≡ []) × (left ≡ rest)) }
{}

/// Where no closing brace stands, the items of a block are read exactly where the first of them is read and the others behind it, with the names in force
/// that it leaves (C99 6.8.2). It does nothing.
pub fn items_are_read_one_by_one()
    ensures { (types : Sequence (Sequence ℕ)) (room : ℕ) (signs left : Sequence Sign) (xs : Sequence Statement) → (Begins brace_end signs → ⊥) → ItemsRead types room signs xs left ↔ FirstItemReads types room signs xs left }
{}

/// Of two items that are read at the front of the same tokens one is the other, with the same names in force behind it and the same tokens left. A typedef
/// name begins a declaration and no expression (C99 6.7.7). It does nothing.
pub fn one_item_is_read()
    ensures { (types behind after : Sequence (Sequence ℕ)) (room more : ℕ) (signs left rest : Sequence Sign) (s t : Statement) → ItemReads types room signs s behind left → ItemReads types more signs t after rest → (s ≡ t) × (behind ≡ after) × (left ≡ rest) }
{}

/// Of two lists of items that are read at the front of the same tokens one is the other, with the same tokens left. It does nothing.
pub fn one_list_is_read()
    ensures { (types : Sequence (Sequence ℕ)) (room more : ℕ) (signs left rest : Sequence Sign) (xs ys : Sequence Statement) → ItemsRead types room signs xs left → ItemsRead types more signs ys rest → (xs ≡ ys) × (left ≡ rest) }
{}
