// Laws of statements: each is its start, and what goes on behind it (C99 6.8).
ghost use Rattle.std.specs.Prelude.{ℕ, ◌≡◌, ◌↔◌, List as Sequence};
ghost use Rattle.po_tree.specs.declared.statement.Stmt.{Stmt as Statement};
ghost use Rattle.po_tree.specs.Signs.{Sign};
ghost use Rattle.po_fun_parts.specs.declared.starts.Start.{Start as Begun};
ghost use Rattle.po_fun_parts.specs.Starting.{StatementStarts};
ghost use Rattle.po_fun_parts.specs.Standing.{StatementStands, Continues};

/// Where a statement begins, the statement stands there exactly where its other parts stand behind its start (C99 6.8). It does nothing.
pub fn a_statement_goes_on_behind_its_start()
    ensures { (types : Sequence (Sequence ℕ)) (signs left rest : Sequence Sign) (begun : Begun) (s : Statement) → StatementStarts types signs begun left → StatementStands types signs s rest ↔ Continues types begun left s rest }
{}

/// Each statement begins with a start, so where none begins no statement stands. It does nothing.
pub fn each_statement_has_a_start()
    ensures { (types : Sequence (Sequence ℕ)) (signs rest : Sequence Sign) (s : Statement) → StatementStands types signs s rest → (begun : Begun) × (left : Sequence Sign) × StatementStarts types signs begun left }
{}

/// Of two starts at the front of the same tokens one is the other, with the same tokens left. It does nothing.
pub fn one_start()
    ensures { (types : Sequence (Sequence ℕ)) (signs left rest : Sequence Sign) (begun other : Begun) → StatementStarts types signs begun left → StatementStarts types signs other rest → (begun ≡ other) × (left ≡ rest) }
{}
