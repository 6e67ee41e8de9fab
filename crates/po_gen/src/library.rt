// The trait of what calls of library functions ask.
ghost use Rattle.std.specs.Prelude.{◌≡◌, IfOk};
ghost use Rattle.po_gen.specs.Asks.{Required};

use po_base::{LibNo, List, Memory, Opnd};
use po_pred::Pred;
use std::alloc::Global;

/// What the calls of library functions ask. It has one meaning, a list of predicates for each call.
pub trait Library {
    ghost meaning: { Self → Required };

    /// What a call of a library function on these operands asks, in its order; `strings` are the places of the operands
    /// that a format of `printf` reads by `%s`.
    fn required(
        &self,
        alloc: Global,
        lib: LibNo,
        args: &[Opnd],
        strings: &[u32],
    ) -> Result<List<Pred>, Memory>
        ensures { IfOk result (λ list. list ≡ meaning self.now lib args.now strings.now) };
}
