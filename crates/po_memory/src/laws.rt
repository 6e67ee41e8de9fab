// Laws of memory: what is stored is read, and what stays.
ghost use Rattle.po_memory.specs.Accesses.{LoadAsks, StoreAsks, StoresAreRead};
ghost use Rattle.po_memory.specs.Passing.{SubstKeepsHolds};
ghost use Rattle.po_memory.specs.Since.{CopiesKeep, FillsKeep, FreshKeeps, KillsKeep, NewKeeps, SinceFurther, SinceItself, SinceThrough, StoresKeep};

/// A predicate of a called function holds in its frame exactly where it holds in the caller's with the arguments put
/// in. It does nothing.
pub fn subst_keeps_holds()
    ensures { SubstKeepsHolds }
{}

/// A load and a store are allowed exactly where all their predicates hold. It does nothing.
pub fn accesses_ask_their_predicates()
    ensures load { LoadAsks }
    ensures store { StoreAsks }
{}

/// What a store wrote a load reads, and nothing else. It does nothing.
pub fn what_is_stored_is_read()
    ensures { StoresAreRead }
{}

/// Blocks keep their size, alignment, origin and writability, and a byte that has a value keeps one. It does nothing.
pub fn blocks_are_kept()
    ensures stores { StoresKeep }
    ensures copies { CopiesKeep }
    ensures fills { FillsKeep }
    ensures kills { KillsKeep }
    ensures new { NewKeeps }
    ensures fresh { FreshKeeps }
{}

/// What came to memory adds up. It does nothing.
pub fn changes_add_up()
    ensures none { SinceItself }
    ensures through { SinceThrough }
    ensures further { SinceFurther }
{}
