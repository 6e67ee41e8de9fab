// The trait of what calls of library functions do.
ghost use Rattle.std.specs.Prelude.{◌≡◌, IfOk, [], List, MatchOption, slice_get};
ghost use Rattle.po_ir.specs.Whole.{Signature};
ghost use Rattle.po_ir.specs.declared.project.Project.{Project};
ghost use Rattle.po_meaning.specs.Library.{Outcomes as Relation};
ghost use Rattle.po_step.specs.Outcomes.{IsCalled, Keeps};

use po_base::{LibNo, Memory};
use po_gen::Library;
use po_ir::Ty;
use po_meaning::Ending;
use po_memory::{Memory2, Value};
use std::alloc::Global;

/// What the calls of library functions do (C99 7). The relation says what a call may do, and of that `outcome` does one.
pub trait Outcomes: Library {
    ghost signatures: { Self → List Signature };

    ghost outcomes: { Self → Relation };

    /// The types of a function's parameters; none where the library has no such function.
    fn parameters(&self, lib: LibNo) -> &[Ty]
        ensures { MatchOption (slice_get (signatures self.now) lib.0) (result.now ≡ []) (λ (s : Signature). result.now ≡ s.params) };

    /// How a call on these values ends, with what it does to the blocks done. A call that ends the run leaves them as they
    /// are. After `Memory` they are to be given up.
    fn outcome(
        &self,
        alloc: Global,
        lib: LibNo,
        args: &[Value],
        m: &mut Memory2,
    ) -> Result<Ending, Memory>
        requires { (p : Project) × IsCalled (Self.meaning self.now) (signatures self.now) p lib args.now m.old.blocks }
        ensures may { IfOk result (λ ending. outcomes self.now lib args.now m.old.blocks ending m.new.blocks) }
        ensures keeps { IfOk result (λ ending. (p : Project) (call : IsCalled (Self.meaning self.now) (signatures self.now) p lib args.now m.old.blocks) → Keeps p call.signature m.old.blocks ending m.new.blocks) };
}
