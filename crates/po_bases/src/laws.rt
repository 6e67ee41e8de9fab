// Laws of bases, filled bytes and known blocks: their orders, joins and moves.
ghost use Rattle.std.specs.Prelude.{◌≡◌, ℕ, ◌≤◌, ℤ, Option};
ghost use Rattle.po_arith.specs.declared.interval.Interval.{Interval};
ghost use Rattle.po_arith.specs.Hull.{IsIn};
ghost use Rattle.po_bases.specs.General.{IsJoin, BelowFromNone};
ghost use Rattle.po_bases.specs.Intervals.{IsBetween};
ghost use Rattle.po_bases.specs.Bases.{IsGrain, IsBases, BasesBelow};
ghost use Rattle.po_bases.specs.Bases as bases;
ghost use Rattle.po_bases.specs.Cover.{Allows, IsAllowed, IsMove, IsMultiple, IsNotNull};
ghost use Rattle.po_bases.specs.Filled.{IsFilled, FilledBelow, IsFact, FactBelow, IsHeap, HeapBelow};
ghost use Rattle.po_bases.specs.Filled as facts;
ghost use Rattle.po_bases.specs.declared.base.Base.{Base};
ghost use Rattle.po_bases.specs.declared.bases.Bases.{Bases};

/// Bases are ordered, and `join_bases` gives the least upper bound of two. It does nothing.
pub fn bases_are_joined()
    ensures { IsJoin IsBases BasesBelow bases.join_bases }
{}

/// Greater bases have the greater join. It does nothing.
pub fn joins_of_bases_rise()
    ensures { (a b c d : Bases) → IsBases a → IsBases b → IsBases c → IsBases d →
        BasesBelow a c → BasesBelow b d → BasesBelow (bases.join_bases a b) (bases.join_bases c d) }
{}

/// Greater bases, moved by a wider interval and a lesser grain, are greater; no bases are the least. It does nothing.
pub fn moved_bases_rise()
    ensures { (by more : Interval) (grain lesser : ℕ) → IsBetween by more → lesser ≤ grain → (a b : Bases) → BasesBelow a b →
        BelowFromNone BasesBelow (bases.move_bases a by grain) (bases.move_bases b more lesser) }
{}

/// Each pointer, a block and an offset, that bases allow is allowed by greater ones. It does nothing.
pub fn greater_bases_allow_more()
    ensures { (value : Base → ℤ → Option (ℕ × ℤ)) (a b : Bases) (p : ℕ × ℤ) →
        IsBases a → IsBases b → BasesBelow a b → Allows value a p → Allows value b p }
{}

/// Each pointer that one of two bases allow is allowed by their join. It does nothing.
pub fn joins_of_bases_cover()
    ensures first { (value : Base → ℤ → Option (ℕ × ℤ)) (a b : Bases) (p : ℕ × ℤ) →
        IsBases a → IsBases b → Allows value a p → Allows value (bases.join_bases a b) p }
    ensures second { (value : Base → ℤ → Option (ℕ × ℤ)) (a b : Bases) (p : ℕ × ℤ) →
        IsBases a → IsBases b → Allows value b p → Allows value (bases.join_bases a b) p }
{}

/// Where bases allow a pointer that isn't null, moved bases allow it moved by each number of the interval that the
/// grain divides; so there are some. It does nothing.
pub fn moved_bases_cover()
    ensures { (value : Base → ℤ → Option (ℕ × ℤ)) (move : ℕ × ℤ → ℤ → ℕ × ℤ) → IsMove value move →
        (by : Interval) (grain : ℕ) → IsGrain grain → (a : Bases) (p : ℕ × ℤ) (w : ℤ) →
        IsBases a → IsNotNull value p → IsIn by w → IsMultiple grain w → Allows value a p →
        IsAllowed value (bases.move_bases a by grain) (move p w) }
{}

/// Filled bytes are ordered, and `join_filled` gives the least upper bound of two; so is what is known of a block, and
/// of the blocks of nodes. It does nothing.
pub fn facts_are_joined()
    ensures bytes { IsJoin IsFilled FilledBelow facts.join_filled }
    ensures blocks { IsJoin IsFact FactBelow facts.join_facts }
    ensures nodes { IsJoin IsHeap HeapBelow facts.join_heap }
{}
